// The report on a price, part by part.
ghost use Rattle.std.specs.Prelude.{◌≡◌, Some};
ghost use Rattle.explanation.specs.Words.{rounding_text, fraction_text, side_line, origin_words, base_line, index_line, scaling_text, stage_words, stage_line, price_line, derivation_text, report_text};

use crate::group::GroupSheet;
use crate::if_any::IfAny;
use pricing::{Base, Derivation, Fraction, Origin, Side, Stage};
use std::fmt;

#[derive(Clone, Copy)]
struct Rounded(i64);

impl fmt::Display for Rounded {
    ghost output = { λ r. Some (rounding_text r.0) };

    fn fmt<W: fmt::Write>(&self, f: &mut fmt::Formatter<W>) -> fmt::Result {
        let whole = self.0;
        write!(f, ", rounded {whole}")
    }
}

#[derive(Clone, Copy)]
struct Exact(Fraction);

impl fmt::Display for Exact {
    ghost output = { λ p. Some (fraction_text p.0) };

    fn fmt<W: fmt::Write>(&self, f: &mut fmt::Formatter<W>) -> fmt::Result {
        let Fraction {
            numerator,
            denominator,
        } = self.0;
        let rounded = IfAny(self.0.rounded().map(Rounded));
        write!(f, "{numerator}/{denominator}{rounded}")
    }
}

#[derive(Clone, Copy)]
struct SideLine(Side, u32);

impl fmt::Display for SideLine {
    ghost output = { λ l. Some (side_line l.0 l.1) };

    fn fmt<W: fmt::Write>(&self, f: &mut fmt::Formatter<W>) -> fmt::Result {
        let kwh = self.1;
        match self.0 {
            Side::Surplus => write!(
                f,
                "The system has a surplus of {kwh} kWh: the price is the least candidate.\n"
            ),
            Side::Shortage => write!(
                f,
                "The system has a shortage of {kwh} kWh: the price is the greatest candidate.\n"
            ),
        }
    }
}

fn origin_words(side: Side, origin: Origin) -> &'static str
    ensures { result.now ≡ origin_words side origin }
{
    match (side, origin) {
        (Side::Surplus, Origin::Mean) => "the mean price of the downward activations",
        (Side::Surplus, Origin::Bid) => "the downward bid",
        (Side::Shortage, Origin::Mean) => "the mean price of the upward activations",
        (Side::Shortage, Origin::Bid) => "the upward bid",
    }
}

#[derive(Clone, Copy)]
struct BaseLine(Side, Base);

impl fmt::Display for BaseLine {
    ghost output = { λ l. Some (base_line l.0 l.1) };

    fn fmt<W: fmt::Write>(&self, f: &mut fmt::Formatter<W>) -> fmt::Result {
        let origin = origin_words(self.0, self.1.origin);
        let value = Exact(self.1.value);
        write!(f, "Base, {origin}: {value}\n")
    }
}

#[derive(Clone, Copy)]
struct IndexLine(Side, Fraction);

impl fmt::Display for IndexLine {
    ghost output = { λ l. Some (index_line l.0 l.1) };

    fn fmt<W: fmt::Write>(&self, f: &mut fmt::Formatter<W>) -> fmt::Result {
        let value = Exact(self.1);
        match self.0 {
            Side::Surplus => write!(f, "Index less its margin: {value}\n"),
            Side::Shortage => write!(f, "Index plus its margin: {value}\n"),
        }
    }
}

#[derive(Clone, Copy)]
struct ScaledLine(Fraction);

impl fmt::Display for ScaledLine {
    ghost output = { λ l. Some (scaling_text l.0) };

    fn fmt<W: fmt::Write>(&self, f: &mut fmt::Formatter<W>) -> fmt::Result {
        let value = Exact(self.0);
        write!(f, "Base scaled by the imbalance: {value}\n")
    }
}

fn stage_words(stage: Stage) -> &'static str
    ensures { result.now ≡ stage_words stage }
{
    match stage {
        Stage::First => "the base",
        Stage::Second => "the index",
        Stage::Third => "the scaled base",
    }
}

#[derive(Clone, Copy)]
struct StageLine(Stage);

impl fmt::Display for StageLine {
    ghost output = { λ l. Some (stage_line l.0) };

    fn fmt<W: fmt::Write>(&self, f: &mut fmt::Formatter<W>) -> fmt::Result {
        let stage = stage_words(self.0);
        write!(f, "Decided by {stage}.\n")
    }
}

#[derive(Clone, Copy)]
struct PriceLine(i32);

impl fmt::Display for PriceLine {
    ghost output = { λ l. Some (price_line l.0) };

    fn fmt<W: fmt::Write>(&self, f: &mut fmt::Formatter<W>) -> fmt::Result {
        let price = self.0;
        write!(f, "Price: {price} stotinki per MWh\n")
    }
}

// How a price came about.
#[derive(Clone, Copy)]
struct PricePart(Derivation);

impl fmt::Display for PricePart {
    ghost output = { λ r. Some (derivation_text r.0) };

    fn fmt<W: fmt::Write>(&self, f: &mut fmt::Formatter<W>) -> fmt::Result {
        match self.0 {
            Derivation::Balanced { price } => {
                let price = PriceLine(price);
                write!(
                    f,
                    "The system is in balance: the price is the index.\n{price}"
                )
            }
            Derivation::Decided {
                side,
                imbalance_kwh,
                candidates,
                stage,
                price,
            } => {
                let side_line = SideLine(side, imbalance_kwh);
                let base = BaseLine(side, candidates.base);
                let index = IndexLine(side, candidates.index);
                let scaled = IfAny(candidates.scaled.map(ScaledLine));
                let decided = StageLine(stage);
                let price = PriceLine(price);
                write!(f, "{side_line}{base}{index}{scaled}{decided}{price}")
            }
        }
    }
}

// How the price of a quarter of an hour came about, and the sheet of its group, where one is listed.
#[derive(Clone, Copy)]
pub struct Report {
    pub derivation: Derivation,
    pub sheet: Option<GroupSheet>,
}

impl fmt::Display for Report {
    ghost output = { λ r. Some (report_text r) };

    fn fmt<W: fmt::Write>(&self, f: &mut fmt::Formatter<W>) -> fmt::Result {
        let price = PricePart(self.derivation);
        let sheet = IfAny(self.sheet.as_ref());
        write!(f, "{price}{sheet}")
    }
}
