// A book with a name.
ghost use Rattle.std.specs.Prelude.{◌≡◌, length};

use cube_engine::Book;
use cube_model::Text;

/// A book with a name.
#[derive(Drop)]
pub(crate) struct NamedBook {
    pub(crate) name: Text,
    pub(crate) book: Book,
}

impl NamedBook {
    /// How many requests its history holds.
    pub(crate) fn held(&self) -> u64
        ensures { result ≡ length self.now.book.history }
    {
        self.book.state().history().len() as u64
    }
}
