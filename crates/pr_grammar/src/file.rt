use pr_words::LIMIT;

/// Where the two slots of a registrations' file begin, and how many registrations each has room for.
#[derive(Clone, Copy, Debug, PartialEq, Eq)]
pub struct FileLayout {
    pub slot0: u64,
    pub slot1: u64,
    pub limit: u16,
}

/// The layout of the registrations' file (this project's own).
pub const FILE_LAYOUT: FileLayout = FileLayout {
    slot0: 4_096,
    slot1: 8_192,
    limit: LIMIT as u16,
};
