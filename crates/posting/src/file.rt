// The postings of a file, one after the other.
ghost use Rattle.std.specs.Prelude.{◌≡◌};
ghost use Rattle.posting.specs.File.{is_opening, placed_record, file_contents, contents_here, contents_left, next_in, after_next, steps_in};
ghost use Rattle.posting.specs.Reading.{record_in};
ghost use Rattle.std.specs.Iterator.{at_most};

use crate::posting::Posting;
use crate::reader::{Record, read_record};
use refusal::{Layer, Reason, Refusal};

// The first byte of every file that is understood.
const VERSION: u8 = 1;

// A posting, and the byte of the file at which the length of its record stands.
#[derive(Clone, Copy, PartialEq, Eq, Debug)]
pub struct Placed {
    pub place: usize,
    pub posting: Posting,
}

#[derive(Clone, Copy)]
enum Stage {
    // the version is absent or another
    Foreign,
    Unopened,
    Opened,
    Ended,
}

// A walk over the postings of a file, which ends with the refusal of its first bad record if it has one.
#[derive(Drop)]
pub struct Postings<'a> {
    file: &'a [u8],
    place: usize,
    stage: Stage,
}

impl Posting {
    fn is_opening(&self) -> bool
        ensures { result ≡ is_opening self.now }
    {
        matches!(self, Posting::Opening(_))
    }
}

// The record at this place, if it may stand there: an opening does where nothing was opened before, and nowhere else.
fn record_in_turn(bytes: &[u8], opened: bool, place: usize) -> Result<Record, Refusal>
    ensures { result ≡ placed_record opened place (record_in bytes.now) }
{
    let record = read_record(bytes).map_err(|refusal| refusal.at_place(place))?;
    if record.posting.is_opening() == opened {
        return Err(Refusal::naming_nobody(Reason::BadRecord, Layer::File).at_place(place));
    }
    Ok(record)
}

impl<'a> Postings<'a> {
    // A walk from the first record of a file on.
    pub fn of_file(file: &'a [u8]) -> Postings<'a>
        ensures { contents_left result ≡ file_contents file.now }
    {
        let stage = match file {
            [VERSION, ..] => Stage::Unopened,
            _ => Stage::Foreign,
        };
        Postings {
            file,
            place: 1,
            stage,
        }
    }

    fn next_record(&mut self, opened: bool) -> Option<Result<Placed, Refusal>>
        ensures answer { result ≡ next_in (contents_here opened self.old) }
        ensures after { contents_left self.new ≡ after_next (contents_here opened self.old) }
    {
        let file = self.file;
        let place = self.place;
        if place >= file.len() {
            self.stage = Stage::Ended;
            return None;
        }
        // Each arm says both what is given and where the walk is left, which neither `?` nor `map` would.
        match record_in_turn(&file[place..], opened, place) {
            Ok(Record { posting, size }) => {
                self.place = place + size;
                self.stage = Stage::Opened;
                Some(Ok(Placed { place, posting }))
            }
            Err(refusal) => {
                self.stage = Stage::Ended;
                Some(Err(refusal))
            }
        }
    }
}

impl Iterator for Postings<'_> {
    type Item = Result<Placed, Refusal>;

    ghost next_gives = { λ s r t. (r ≡ next_in (contents_left s)) × (contents_left t ≡ after_next (contents_left s)) };

    ghost remaining = { λ s. at_most (steps_in (contents_left s)) };

    // The next posting, or the refusal that ends the walk; then nothing.
    fn next(&mut self) -> Option<Result<Placed, Refusal>> {
        match self.stage {
            Stage::Foreign => {
                self.stage = Stage::Ended;
                Some(Err(Refusal::naming_nobody(Reason::UnknownVersion, Layer::File).at_place(0)))
            }
            Stage::Unopened => self.next_record(false),
            Stage::Opened => self.next_record(true),
            Stage::Ended => None,
        }
    }
}
