// Opening, reading and setting.
ghost use Rattle.surcharges.specs.Additions.{addition_in, additions_in};
ghost use Rattle.surcharges.specs.Surcharges.{Sets, no_additions, setting_answer};
ghost use Rattle.std.specs.Prelude.{◌≡◌};

use super::AdditionTable;
use crate::setting::Setting;
use rules::rows::Addition;
use terms::fault::Fault;
use terms::limits::{CLASSES, WHOLE};
use terms::refusal::Refusal;

// Nothing is added.
// Kept: no plainer: it is a constant, of which the array is made; a Default of Addition, in rules, would be for this table alone.
const NOTHING: Addition = Addition { y: 0, x: 0 };

// The questions put to a setting.
fn judge(setting: Setting) -> Result<(), Fault>
    ensures { result ≡ setting_answer setting }
{
    let refusal = if setting.class as usize >= CLASSES {
        Refusal::UnknownSurchargeClass
    } else if setting.addition.y > WHOLE || setting.addition.x > WHOLE {
        Refusal::AdditionOutOfRange
    } else {
        return Ok(());
    };
    Err(refusal.at(setting.class))
}

impl AdditionTable {
    // Every addition is 0.
    pub(crate) fn open() -> Self
        ensures { additions_in result ≡ no_additions }
    {
        AdditionTable {
            classes: [NOTHING; CLASSES],
        }
    }

    // What is added to a class.
    pub(crate) fn of(&self, class: u16) -> Addition
        ensures { result ≡ addition_in self.now class }
    {
        self.classes.get(class as usize).copied().unwrap_or(NOTHING)
    }

    // Replaces the additions of a class.
    pub(crate) fn set(&mut self, setting: Setting) -> Result<(), Fault>
        ensures { Sets additions_in self.old setting result self.new }
    {
        judge(setting)?;
        self.classes[setting.class as usize] = setting.addition;
        Ok(())
    }
}
