// A script, read line by line: the calls at a desk are kept until the next desk is opened.
ghost use Rattle.std.specs.Prelude.{◌≡◌, [], IfOk, OnOk};
ghost use Rattle.replay.specs.Scripts.{Kept};

use crate::desks::{Day, Places};
use crate::order::{Desk, Line, NotUnderstood, Order, PassedOver};
use std::alloc::{AllocError, Global};

// The desk that is open, the calls for it, and the memory that it gets.
#[derive(Drop)]
pub(crate) struct Session {
    desk: Option<Desk>,
    orders: Vec<Order>,
    places: Places,
}

impl Session {
    // No desk is open.
    pub(crate) fn new(heap: Global) -> Session
        ensures desk { result.desk ≡ None }
        ensures orders { result.orders.items ≡ [] }
        ensures places { result.places ≡ Places.ENOUGH }
    {
        Session {
            desk: None,
            orders: Vec::new(heap),
            places: Places::ENOUGH,
        }
    }

    // What the day of the open desk needs: every order that was kept, and the memory that was given.
    fn day(&self, heap: Global) -> Day<'_>
        ensures orders { result.orders.now ≡ self.now.orders.items }
        ensures places { result.places ≡ self.now.places }
    {
        Day {
            heap,
            orders: &self.orders,
            places: self.places,
        }
    }

    // Makes the calls at the desk that is open, of which nothing goes on to the next.
    pub(crate) fn close(&mut self, rt: &HostRuntime) -> anyhow::Result<()>
        ensures desk { OnOk result (self.new.desk ≡ None) }
        ensures orders { OnOk result (self.new.orders.items ≡ []) }
        ensures places { OnOk result (self.new.places ≡ Places.ENOUGH) }
    {
        if let Some(desk) = self.desk.take() {
            desk.run(rt, self.day(rt.alloc()))?;
        }
        self.orders.clear();
        self.places = Places::ENOUGH;
        Ok(())
    }

    // Opens a desk.
    fn open(&mut self, rt: &HostRuntime, desk: Desk) -> anyhow::Result<()>
        ensures desk { OnOk result (self.new.desk ≡ Some desk) }
        ensures orders { OnOk result (self.new.orders.items ≡ []) }
        ensures places { OnOk result (self.new.places ≡ Places.ENOUGH) }
    {
        self.close(rt)?;
        self.desk = Some(desk);
        println!(rt; "{desk}")?;
        Ok(())
    }

    // Keeps an order for the day of the desk that is open, or says that its line is passed over.
    fn keep(&mut self, line: usize, order: Order) -> Result<Option<PassedOver>, AllocError>
        ensures { IfOk result (λ passed. Kept self.old.desk line order self.old.orders.items passed self.new.orders.items) }
    {
        match self.desk {
            Some(desk) if desk.has(order) => {
                self.orders.push(order)?;
                Ok(None)
            }
            _ => Ok(Some(PassedOver::NoDeskCan { line, order })),
        }
    }

    // Takes one line of the script.
    pub(crate) fn read(
        &mut self,
        rt: &HostRuntime,
        number: usize,
        text: &str,
    ) -> anyhow::Result<()> {
        // Kept: no plainer: a line is data, read with no session at hand; `parse` would have to hand out a boxed closure, which the
        // gate refuses.
        let passed = match text.parse() {
            Ok(Line::Nothing) => None,
            Ok(Line::Desk(desk)) => {
                self.open(rt, desk)?;
                None
            }
            Ok(Line::Memory { of, places }) => {
                self.places.give(of, places);
                None
            }
            Ok(Line::Order(order)) => self.keep(number, order)?,
            Err(NotUnderstood) => Some(PassedOver::NotUnderstood { line: number }),
        };
        if let Some(passed) = passed {
            println!(rt; "{passed}")?;
        }
        Ok(())
    }
}
