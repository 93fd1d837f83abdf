ghost use Rattle.std.specs.Prelude.{◌≡◌, ◌↔◌, IsTrue};
ghost use Rattle.pr_io.specs.Calls.{IsToFail, next_call};

/// Counts the calls of an object, and knows which of them are to fail.
#[derive(Debug, Drop)]
pub(crate) struct Calls {
    made: u64,
    failing: Vec<u64>,
}

impl Calls {
    pub(crate) fn new(failing: Vec<u64>) -> Calls
        ensures made { result.made ≡ 0 }
        ensures failing { result.failing ≡ failing }
    {
        Calls { made: 0, failing }
    }

    /// Counts one call more, and says whether it is to fail.
    pub(crate) fn next_fails(&mut self) -> bool
        ensures listed { IsTrue result ↔ IsToFail self.old.failing.items self.old.made }
        ensures made { self.new.made ≡ next_call self.old.made }
        ensures failing { self.new.failing ≡ self.old.failing }
    {
        self.made = self.made.saturating_add(1);
        self.failing.contains(&self.made)
    }
}
