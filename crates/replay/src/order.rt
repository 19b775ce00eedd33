// The lines of a script.
use books::booking::Booking;
use rules::rows::Addition;
use std::str::{FromStr, SplitWhitespace};
use surcharges::setting::Setting;
use terms::choice::Side;

// What a dealer orders at a desk.
#[derive(Clone, Copy)]
pub(crate) enum Order {
    Book(Booking),
    Commit,
    Drop,
    Surcharge(Setting),
    Deposit { classes: usize, matches: usize },
}

// What a desk is opened over.
#[derive(Clone, Copy)]
pub(crate) enum Desk {
    Rates,
    Pairs,
    Journal,
    Layered,
    Stacked,
}

// A memory that is handed in.
#[derive(Clone, Copy)]
pub(crate) enum Memory {
    Classes,
    Matches,
    Entries,
    Bookings,
}

// What a line says.
#[derive(Clone, Copy)]
pub(crate) enum Line {
    Nothing,
    Desk(Desk),
    Memory { of: Memory, places: u16 },
    Order(Order),
}

// A word or a line that is not understood.
#[derive(Clone, Copy)]
pub(crate) struct NotUnderstood;

// A line of the script that is passed over, by its number: the open desk has no call for its order, or no desk is open, or the
// line is not understood.
#[derive(Clone, Copy)]
pub(crate) enum PassedOver {
    NoDeskCan { line: usize, order: Order },
    NotUnderstood { line: usize },
}

impl FromStr for Desk {
    type Err = NotUnderstood;

    fn from_str(word: &str) -> Result<Desk, NotUnderstood> {
        match word {
            "rates" => Ok(Desk::Rates),
            "pairs" => Ok(Desk::Pairs),
            "journal" => Ok(Desk::Journal),
            "layered" => Ok(Desk::Layered),
            "stacked" => Ok(Desk::Stacked),
            _ => Err(NotUnderstood),
        }
    }
}

impl FromStr for Memory {
    type Err = NotUnderstood;

    fn from_str(word: &str) -> Result<Memory, NotUnderstood> {
        match word {
            "classes" => Ok(Memory::Classes),
            "matches" => Ok(Memory::Matches),
            "entries" => Ok(Memory::Entries),
            "bookings" => Ok(Memory::Bookings),
            _ => Err(NotUnderstood),
        }
    }
}

// The next word.
fn next_word<'a>(words: &mut SplitWhitespace<'a>) -> Result<&'a str, NotUnderstood> {
    words.next().ok_or(NotUnderstood)
}

// What the next word names.
fn read<T: FromStr>(words: &mut SplitWhitespace<'_>) -> Result<T, NotUnderstood>
where
    T::Err: Drop,
{
    next_word(words)?.parse().map_err(|_| NotUnderstood)
}

// The next word is this one.
fn keyword(words: &mut SplitWhitespace<'_>, word: &str) -> Result<(), NotUnderstood> {
    if next_word(words)? == word {
        Ok(())
    } else {
        Err(NotUnderstood)
    }
}

// book SECURITY bought|sold QUANTITY
fn booking(words: &mut SplitWhitespace<'_>) -> Result<Booking, NotUnderstood> {
    let security = read(words)?;
    // Kept: a FromStr of Side, in terms, would be public, with an error, a contract and an edit of its own, for this one use.
    let side = match next_word(words)? {
        "bought" => Side::Bought,
        "sold" => Side::Sold,
        _ => return Err(NotUnderstood),
    };
    let quantity = side.signed(read(words)?);
    Ok(Booking { security, quantity })
}

// surcharge CLASS y ADDITION x ADDITION
fn surcharge(words: &mut SplitWhitespace<'_>) -> Result<Setting, NotUnderstood> {
    let class = read(words)?;
    keyword(words, "y")?;
    let y = read(words)?;
    keyword(words, "x")?;
    let x = read(words)?;
    let addition = Addition { y, x };
    Ok(Setting { class, addition })
}

// deposit, which is handed all the memory of the desk, or deposit CLASSES MATCHES, which is handed so many places
fn deposit(words: &mut SplitWhitespace<'_>) -> Result<Order, NotUnderstood> {
    let Some(first) = words.next() else {
        return Ok(Order::Deposit {
            classes: usize::MAX,
            matches: usize::MAX,
        });
    };
    let classes: u16 = first.parse().map_err(|_| NotUnderstood)?;
    let matches: u16 = read(words)?;
    Ok(Order::Deposit {
        classes: classes as usize,
        matches: matches as usize,
    })
}

// memory classes|matches|entries|bookings PLACES
fn memory_named(words: &mut SplitWhitespace<'_>) -> Result<Line, NotUnderstood> {
    let of = read(words)?;
    let places = read(words)?;
    Ok(Line::Memory { of, places })
}

// What the words of a line say, up to the last that it needs.
fn said(words: &mut SplitWhitespace<'_>) -> Result<Line, NotUnderstood> {
    let Some(first) = words.next() else {
        return Ok(Line::Nothing);
    };
    match first {
        "desk" => Ok(Line::Desk(read(words)?)),
        "memory" => memory_named(words),
        "book" => Ok(Line::Order(Order::Book(booking(words)?))),
        "surcharge" => Ok(Line::Order(Order::Surcharge(surcharge(words)?))),
        "commit" => Ok(Line::Order(Order::Commit)),
        "drop" => Ok(Line::Order(Order::Drop)),
        "deposit" => Ok(Line::Order(deposit(words)?)),
        _ => Err(NotUnderstood),
    }
}

// The text of a line before its comment.
fn before_comment(text: &str) -> &str {
    text.split_once('#').map_or(text, |(before, _)| before)
}

// A line is not understood where a word is wrong, missing or left over.
impl FromStr for Line {
    type Err = NotUnderstood;

    fn from_str(text: &str) -> Result<Line, NotUnderstood> {
        let mut words = before_comment(text).split_whitespace();
        let line = said(&mut words)?;
        match words.next() {
            None => Ok(line),
            Some(_) => Err(NotUnderstood),
        }
    }
}
