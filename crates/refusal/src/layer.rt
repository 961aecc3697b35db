// The layer that refuses.
ghost use Rattle.std.specs.Prelude.{◌≡◌, Some};
ghost use Rattle.refusal.specs.Text.{layer_name};

use std::fmt;

#[derive(Clone, Copy, PartialEq, Eq, Debug)]
pub enum Layer {
    File,
    Run,
    Rule,
    Ceiling,
    Seal,
    Book,
    Directory,
}

impl Layer {
    // The layer's name, by hand: what a derive prints is promised by no clause.
    pub fn name(self) -> &'static str
        ensures { result.now ≡ layer_name self }
    {
        match self {
            Layer::File => "file",
            Layer::Run => "run",
            Layer::Rule => "rule",
            Layer::Ceiling => "ceiling",
            Layer::Seal => "seal",
            Layer::Book => "book",
            Layer::Directory => "directory",
        }
    }
}

impl fmt::Display for Layer {
    ghost output = { λ l. Some (layer_name l) };

    fn fmt<W: fmt::Write>(&self, f: &mut fmt::Formatter<W>) -> fmt::Result {
        let name = self.name();
        write!(f, "{name}")
    }
}
