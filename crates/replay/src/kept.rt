// What is kept in the book beneath a desk, in plain words.
ghost use Rattle.replay.specs.Words.{bought_or_sold, kept_line, net_words, nets_words};
ghost use Rattle.std.specs.Prelude.{◌≡◌, ◌<◌, Some, pos, slice_index_or};
ghost use Rattle.terms.specs.Limits.{security_count};

use books::book::Book;
use std::fmt;
use terms::limits::SECURITIES;

fn bought_or_sold_of(net: i64) -> &'static str
    ensures { result.now ≡ bought_or_sold net }
{
    if net < 0 { "sold" } else { "bought" }
}

// The net of a security, if it is other than 0.
#[derive(Clone, Copy)]
struct NetWords {
    security: u16,
    net: i64,
}

impl NetWords {
    // The net of a security, out of all.
    fn of(nets: &[i64; SECURITIES], security: u16) -> NetWords
        requires { security < security_count }
        ensures security { result.security ≡ security }
        ensures net { result.net ≡ slice_index_or nets.now security (pos 0) }
    {
        let net = nets[security as usize];
        NetWords { security, net }
    }
}

impl fmt::Display for NetWords {
    ghost output = { λ words. Some (net_words words.security words.net) };

    #[tactic(auto, unfolding(crate::specs::Words::net_words))]
    fn fmt<W: fmt::Write>(&self, f: &mut fmt::Formatter<W>) -> fmt::Result {
        if self.net == 0 {
            return Ok(());
        }
        let security = self.security;
        let units = self.net.unsigned_abs();
        let side = bought_or_sold_of(self.net);
        write!(f, "; security {security}: {units} {side}")
    }
}

// The nets of all securities.
#[derive(Drop)]
struct NetsWords<'a, B: Book>(&'a B);

impl<B: Book + Drop> fmt::Display for NetsWords<'_, B> {
    ghost output = { λ words. Some (nets_words (B.Positions.nets words.0.now) security_count) };

    fn fmt<W: fmt::Write>(&self, f: &mut fmt::Formatter<W>) -> fmt::Result {
        let nets = self.0.all_nets();
        for security in 0..SECURITIES as u16 {
            NetWords::of(&nets, security).fmt(f)?;
        }
        Ok(())
    }
}

// The bookings left in a book, and its nets.
#[derive(Drop)]
pub(crate) struct KeptLine<'a, B: Book>(pub(crate) &'a B);

impl<B: Book + Drop> fmt::Display for KeptLine<'_, B> {
    ghost output = { λ line. Some (kept_line (B.Positions.nets line.0.now) (B.Book.meaning.account line.0.now).left) };

    #[tactic(auto, unfolding(crate::specs::Words::kept_line))]
    fn fmt<W: fmt::Write>(&self, f: &mut fmt::Formatter<W>) -> fmt::Result {
        let left = self.0.bookings_left();
        let nets = NetsWords(self.0);
        writeln!(f, "beneath: bookings left {left}{nets}")
    }
}
