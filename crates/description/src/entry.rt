// What a line enters.
ghost use Rattle.std.specs.Prelude.{◌≡◌};
ghost use Rattle.description.specs.Entries.{expected, number_in, energy_in, at_end, lone_number, activation_in, position_in, entry_for, is_ignored, entry_of};

use crate::keyword::Keyword;
use crate::numbers::{signed, unsigned};
use crate::problem::Fault;
use crate::words::split_word;
use charging::{Position, Role};
use pricing::Activation;

#[derive(Clone, Copy)]
pub enum Entry {
    ImbalanceKwh(i32),
    IndexPrice(i32),
    Downward(DirectionEntry),
    Upward(DirectionEntry),
    OfGroup(GroupEntry),
}

// What a line enters for one direction.
#[derive(Clone, Copy)]
pub enum DirectionEntry {
    Bid(i32),
    Activated(Activation),
}

// What a line enters for the group.
#[derive(Clone, Copy)]
pub enum GroupEntry {
    InternalPrice(i32),
    Member(Position),
}

// The number that was read of a word; an empty word is a missing one, and of any other this is the fault.
fn expected<N: Drop>(word: &[u8], number: Option<N>, fault: Fault) -> Result<N, Fault>
    ensures { result ≡ expected word.now number fault }
{
    if word.is_empty() {
        return Err(Fault::NumberMissing);
    }
    number.ok_or(fault)
}

fn read_number(word: &[u8]) -> Result<i32, Fault>
    ensures { result ≡ number_in word.now }
{
    expected(word, signed(word), Fault::NotNumber)
}

fn read_energy(word: &[u8]) -> Result<u32, Fault>
    ensures { result ≡ energy_in word.now }
{
    expected(word, unsigned(word), Fault::NotEnergy)
}

fn expect_end(rest: &[u8]) -> Result<(), Fault>
    ensures { result ≡ at_end rest.now tt }
{
    let (word, _) = split_word(rest);
    if word.is_empty() {
        Ok(())
    } else {
        Err(Fault::TooMuch)
    }
}

fn read_lone_number(rest: &[u8]) -> Result<i32, Fault>
    ensures { result ≡ lone_number rest.now }
{
    let (word, rest) = split_word(rest);
    let number = read_number(word)?;
    expect_end(rest)?;
    Ok(number)
}

fn read_activation(rest: &[u8]) -> Result<Activation, Fault>
    ensures { result ≡ activation_in rest.now }
{
    let (kwh_word, rest) = split_word(rest);
    let kwh = read_energy(kwh_word)?;
    let (price_word, rest) = split_word(rest);
    let price = read_number(price_word)?;
    expect_end(rest)?;
    Ok(Activation { kwh, price })
}

// Not one function with `read_activation`: the second words differ in type, and one closure more would make each call longer.
fn read_position(role: Role, rest: &[u8]) -> Result<Position, Fault>
    ensures { result ≡ position_in role rest.now }
{
    let (schedule_word, rest) = split_word(rest);
    let schedule_kwh = read_energy(schedule_word)?;
    let (reading_word, rest) = split_word(rest);
    let reading_kwh = read_energy(reading_word)?;
    expect_end(rest)?;
    Ok(Position {
        role,
        schedule_kwh,
        reading_kwh,
    })
}

fn read_after(keyword: Keyword, rest: &[u8]) -> Result<Entry, Fault>
    ensures { result ≡ entry_for keyword rest.now }
{
    let entry = match keyword {
        Keyword::Imbalance => Entry::ImbalanceKwh(read_lone_number(rest)?),
        Keyword::Index => Entry::IndexPrice(read_lone_number(rest)?),
        Keyword::DownBid => Entry::Downward(DirectionEntry::Bid(read_lone_number(rest)?)),
        Keyword::UpBid => Entry::Upward(DirectionEntry::Bid(read_lone_number(rest)?)),
        Keyword::Down => Entry::Downward(DirectionEntry::Activated(read_activation(rest)?)),
        Keyword::Up => Entry::Upward(DirectionEntry::Activated(read_activation(rest)?)),
        Keyword::Internal => Entry::OfGroup(GroupEntry::InternalPrice(read_lone_number(rest)?)),
        Keyword::Producer => Entry::OfGroup(GroupEntry::Member(read_position(
            Role::Producer,
            rest,
        )?)),
        Keyword::Consumer => Entry::OfGroup(GroupEntry::Member(read_position(
            Role::Consumer,
            rest,
        )?)),
    };
    Ok(entry)
}

fn ignored(word: &[u8]) -> bool
    ensures { result ≡ is_ignored word.now }
{
    matches!(word, [] | [b'#', ..])
}

// None where the line is ignored.
pub(crate) fn read_line(line: &[u8]) -> Result<Option<Entry>, Fault>
    ensures { result ≡ entry_of line.now }
{
    let (word, rest) = split_word(line);
    if ignored(word) {
        return Ok(None);
    }
    let keyword = Keyword::named(word).ok_or(Fault::UnknownKeyword)?;
    Ok(Some(read_after(keyword, rest)?))
}
