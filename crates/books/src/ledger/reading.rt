// Reading.
ghost use Rattle.books.specs.Books.{reading_refusal};
ghost use Rattle.books.specs.Ledgers.{ledger_account, ledger_nets};
ghost use Rattle.terms.specs.Questions.{answer};
ghost use Rattle.std.specs.Prelude.{◌≡◌, ℕ, pos, slice_index_or};

use super::Ledger;
use crate::judge::known;
use terms::fault::Fault;
use terms::layer::Layer;
use terms::limits::SECURITIES;

impl Ledger {
    /// How many bookings are left.
    pub fn bookings_left(&self) -> u32
        ensures { result ≡ (ledger_account self.now).left }
    {
        self.left
    }

    /// The net of a security, and 0 where there is no such security.
    pub fn net_at(&self, security: u16) -> i64
        ensures { result ≡ ledger_nets self.now security }
    {
        self.nets.get(security as usize).copied().unwrap_or(0)
    }

    /// The nets of all securities.
    pub fn nets(&self) -> [i64; SECURITIES]
        ensures { (s : ℕ) → slice_index_or result s (pos 0) ≡ ledger_nets self.now s }
    {
        self.nets
    }

    /// The net of a security, or a fault of this layer.
    pub fn net(&self, layer: Layer, security: u16) -> Result<i64, Fault>
        ensures { result ≡ answer layer security (ledger_nets self.now security) (reading_refusal security) }
    {
        known(layer, security)?;
        Ok(self.net_at(security))
    }
}
