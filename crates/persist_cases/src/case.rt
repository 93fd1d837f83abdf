use crate::flaw::Flaw;
use std::alloc::Global;

/// A run of `persist`, and what is to come of it.
#[derive(Drop)]
pub(crate) struct Case {
    pub name: String,
    /// The words of the command, with a space between each two.
    pub words: String,
    /// The commands that a target had before which answers by itself, where there is one.
    pub before: Option<Vec<String>>,
    /// What the target says where it doesn't: frames without their lengths.
    pub replies: Vec<Vec<u8>>,
    /// What it says behind them.
    pub rest: Vec<u8>,
    /// What it is to hear, and whether that is told.
    pub heard: Option<Vec<u8>>,
    /// What is to be printed.
    pub text: String,
    /// What the user is to be told.
    pub line: Option<String>,
    /// How the process is to end.
    pub status: u8,
}

impl Case {
    /// A case that has a name so far.
    pub(crate) fn named(alloc: Global, name: &str) -> Result<Case, Flaw> {
        Ok(Case {
            name: String::from_str(alloc, name)?,
            words: String::new(alloc),
            before: None,
            replies: Vec::new(alloc),
            rest: Vec::new(alloc),
            heard: None,
            text: String::new(alloc),
            line: None,
            status: 0,
        })
    }

    /// All that the target says.
    pub(crate) fn said(&self, alloc: Global) -> Result<Vec<u8>, Flaw> {
        let mut said = Vec::new(alloc);
        for reply in &self.replies {
            add_frame(&mut said, reply)?;
        }
        said.extend_from_slice(&self.rest)?;
        Ok(said)
    }

    /// What the target says up to a reply, of which so many bytes are there.
    pub(crate) fn said_short(
        &self,
        alloc: Global,
        reply: usize,
        size: usize,
    ) -> Result<Vec<u8>, Flaw> {
        let mut said = Vec::new(alloc);
        for reply in self.replies.iter().take(reply) {
            add_frame(&mut said, reply)?;
        }
        if let Some(reply) = self.replies.get(reply) {
            add_frame(&mut said, &reply[..size.min(reply.len())])?;
        }
        Ok(said)
    }
}

/// Adds a frame, with its length before it.
pub(crate) fn add_frame(bytes: &mut Vec<u8>, frame: &[u8]) -> Result<(), Flaw> {
    let length = u32::try_from(frame.len()).map_err(|_| Flaw::TooLong)?;
    bytes.extend_from_slice(&length.to_be_bytes())?;
    bytes.extend_from_slice(frame)?;
    Ok(())
}
