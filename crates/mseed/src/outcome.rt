//! How a command ends: by its exit status, and by what is wrong with its input.
ghost use Rattle.std.specs.Prelude.{◌≡◌};
ghost use Rattle.mseed_files.specs.declared.blame.Blame.{Blame};

use mseed_files::Blame;

/// How a command ended.
#[derive(Clone, Copy)]
pub struct Ended {
    /// The exit status.
    pub status: u8,
    /// What is wrong with the input, where more is to be said of it.
    pub blame: Blame,
}

impl Ended {
    /// A command that ended with this exit status, and of whose input nothing more is to be said.
    pub fn with(status: u8) -> Ended
        ensures status { result.status ≡ status }
        ensures blame { result.blame ≡ Blame.Nothing }
    {
        Ended {
            status,
            blame: Blame::Nothing,
        }
    }
}
