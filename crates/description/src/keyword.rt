// The words that a line may begin with.
ghost use Rattle.std.specs.Prelude.{◌≡◌};
ghost use Rattle.description.specs.Entries.{keyword_of};

#[derive(Clone, Copy)]
pub enum Keyword {
    Imbalance,
    Index,
    DownBid,
    UpBid,
    Down,
    Up,
    Internal,
    Producer,
    Consumer,
}

impl Keyword {
    pub(crate) fn named(word: &[u8]) -> Option<Keyword>
        ensures { result ≡ keyword_of word.now }
    {
        match word {
            b"imbalance" => Some(Keyword::Imbalance),
            b"index" => Some(Keyword::Index),
            b"down-bid" => Some(Keyword::DownBid),
            b"up-bid" => Some(Keyword::UpBid),
            b"down" => Some(Keyword::Down),
            b"up" => Some(Keyword::Up),
            b"internal" => Some(Keyword::Internal),
            b"producer" => Some(Keyword::Producer),
            b"consumer" => Some(Keyword::Consumer),
            _ => None,
        }
    }
}
