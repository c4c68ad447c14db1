//! Records of a log, in the names of the script.

use dh_base::Name;

/// A record that is appended to a list.
#[derive(Clone, Copy)]
pub enum RecordLine {
    /// The start of the deal.
    Start { deal: Name },
    /// The party's vote to commit.
    Commit { deal: Name, party: Name },
    /// The party's vote to abort.
    Abort { deal: Name, party: Name },
}
