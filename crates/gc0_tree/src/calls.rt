//! The library calls by their names.

ghost use Rattle.std.specs.Prelude.{◌≡◌};
ghost use Rattle.gc0_tree.specs.Calls.{library_name, library_named, takes_text};

use crate::LibraryCall;

impl LibraryCall {
    /// The name by which a text calls it.
    pub fn name(self) -> &'static [u8]
        ensures { result.now ≡ library_name self }
    {
        match self {
            LibraryCall::PrintInt => b"printint",
            LibraryCall::PrintBool => b"printbool",
            LibraryCall::Print => b"print",
            LibraryCall::PrintLine => b"println",
            LibraryCall::ReadInt => b"readint",
            LibraryCall::MoreInt => b"moreint",
        }
    }

    /// The call of this name.
    pub fn named(name: &[u8]) -> Option<LibraryCall>
        ensures { result ≡ library_named name.now }
    {
        if name == LibraryCall::PrintInt.name() {
            Some(LibraryCall::PrintInt)
        } else if name == LibraryCall::PrintBool.name() {
            Some(LibraryCall::PrintBool)
        } else if name == LibraryCall::Print.name() {
            Some(LibraryCall::Print)
        } else if name == LibraryCall::PrintLine.name() {
            Some(LibraryCall::PrintLine)
        } else if name == LibraryCall::ReadInt.name() {
            Some(LibraryCall::ReadInt)
        } else if name == LibraryCall::MoreInt.name() {
            Some(LibraryCall::MoreInt)
        } else {
            None
        }
    }

    /// Whether it takes a text.
    pub fn takes_text(self) -> bool
        ensures { result ≡ takes_text self }
    {
        matches!(self, LibraryCall::Print | LibraryCall::PrintLine)
    }
}
