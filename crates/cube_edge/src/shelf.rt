// Files by their names, as a folder reads them.
ghost use Rattle.std.specs.Prelude.{◌≡◌, ◌<◌, List, Option, Some, ℕ, length, IfOk, IfSome, IsSomeAnd};
ghost use Rattle.std.specs.Io.{ReadsAtMost};
ghost use Rattle.std.specs.Io.KnownBytes.{ReadConsumes};
ghost use Rattle.cube_io.specs.Causes.{HasCause};
ghost use Rattle.cube_io.specs.Files.{file_of};
ghost use Rattle.cube_edge.specs.Shelves.{ShelfState};

use cube_model::Text;
use std::io;

/// Files by their names, each read from its first byte on. It counts each call that it refuses.
pub trait Shelf {
    /// A file that was opened. It is closed where it is let go.
    type File: Drop;

    /// Its files by their names, where it tells them, and how often it refused a call.
    ghost state: { Self → ShelfState };

    /// The bytes that an open file still gives, where they are told.
    ghost left: { Self.File → Option (List ℕ) };

    /// Opens a file at its first byte.
    fn open(&mut self, name: &Text) -> io::Result<Self::File>
        ensures same { (state self.new).files ≡ (state self.old).files }
        ensures cause { HasCause (state self.old).refused (state self.new).refused result }
        ensures whole { IfSome (state self.old).files (λ known. IfOk result (λ file. IsSomeAnd (file_of known name.now) (λ bytes. left file ≡ Some bytes))) };

    /// The next bytes of a file, at the front of the buffer, and how many: 0 at its end.
    fn read(&mut self, file: &mut Self::File, buf: &mut [u8]) -> io::Result<usize>
        requires { 0 < length buf.old }
        ensures same { (state self.new).files ≡ (state self.old).files }
        ensures cause { HasCause (state self.old).refused (state self.new).refused result }
        ensures bound { ReadsAtMost result buf.new }
        ensures bytes { ReadConsumes (left file.old) (left file.new) result buf.new };
}
