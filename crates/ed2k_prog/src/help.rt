//! What is told of the program to a person.

use std::fmt;

/// What is told of the program besides the usage line.
#[derive(Clone, Copy, Debug, PartialEq, Eq)]
pub(crate) enum Asked {
    /// The commands and options.
    Help,
    /// The version.
    Version,
}

/// The version of the program.
const VERSION: &str = "ed2k_node 0.1.0\n";

/// The commands and options.
const TABLE: &str = "\
commands:
  get LINK PLACE --from=A.B.C.D:PORT   fetch the file of the link from the peer into PLACE.body
  hash NAME                            print the link of the file NAME, with its AICH root
  link LINK                            print the canonical form of the link

options:
  --from=A.B.C.D:PORT   the peer to fetch from
  -h, --help, help      this text
  --version             the version

environment:
  ED2K_NODE_TIMEOUT     the seconds that a peer may be silent (600; 0 for no limit)

`man ed2k_node` has the statuses and the printed lines.
";

impl Asked {
    /// What the words of a command line ask for, if they ask for this alone.
    pub(crate) fn by(words: &[String]) -> Option<Self> {
        match words {
            [] => Some(Asked::Help),
            [word] => match word.as_str() {
                "help" | "--help" | "-h" => Some(Asked::Help),
                "--version" => Some(Asked::Version),
                _ => None,
            },
            _ => None,
        }
    }
}

impl fmt::Display for Asked {
    fn fmt<W: fmt::Write>(&self, f: &mut fmt::Formatter<W>) -> fmt::Result {
        f.write_str(match self {
            Asked::Help => TABLE,
            Asked::Version => VERSION,
        })
    }
}
