//! Runs of barriers that succeeded.

ghost use Rattle.std.specs.Prelude.{◌≡◌, ◌↔◌, Option, Some, None, IfOk, IfErr, IsOk, IsTrue};
ghost use Rattle.std.specs.Option.{option_map};
ghost use Rattle.take_disk.specs.Tickets.{Joins, first_of, second_of};

use crate::area::Area;
use crate::ticket::Ticket;
use rec_bytes::Failed;
use std::marker::Model;

/// A ticket whose barrier has run. Only a run that succeeded makes one.
#[derive(Drop)]
pub struct Done {
    ticket: Ticket,
}

impl Model for Done {
    ghost use Rattle.take_disk.specs.declared.ticket.Ticket.{Ticket};

    ghost Value = { Ticket };

    ghost view = { λ done. done.ticket };
}

impl Done {
    // The ticket after a barrier's run for it.
    pub(crate) fn of_run(ticket: Ticket, run: Result<(), Failed>) -> Result<Done, Failed>
        ensures done { IfOk result (λ done. done ≡ ticket) }
        ensures run { IsOk result ↔ IsOk run }
    {
        run?;
        Ok(Done { ticket })
    }

    /// The ticket.
    pub fn ticket(&self) -> &Ticket
        ensures shown { result.now ≡ self.now }
    {
        &self.ticket
    }

    /// The run for a ticket of two devices, out of the runs for each. They come back where their tickets don't make it up.
    pub fn join(ticket: Ticket, first: Done, second: Done) -> Result<Done, (Done, Done)>
        ensures accepted { IsOk result ↔ Joins ticket first second }
        ensures joined { IfOk result (λ done. done ≡ ticket) }

        ensures unchanged { IfErr result (λ back. (back.0 ≡ first) × (back.1 ≡ second)) }
    {
        if first.ticket == one_device(ticket.area, ticket.moment)
            && is_twin(ticket, second.ticket)
        {
            return Ok(Done { ticket });
        }
        Err((first, second))
    }

    /// The runs of each device; the second is there where the ticket is of two.
    pub fn split(self) -> (Done, Option<Done>)
        ensures first { result.0 ≡ first_of self }
        ensures second { result.1 ≡ option_map (second_of self) self.twin }
    {
        let Ticket { area, moment, twin } = self.ticket;
        let first = Done {
            ticket: one_device(area, moment),
        };
        let second = twin.map(|moment| Done {
            ticket: one_device(area, moment),
        });
        (first, second)
    }
}

// A ticket of one device.
fn one_device(area: Area, moment: u64) -> Ticket
    ensures { result ≡ record { area = area; moment = moment; twin = None } }
{
    Ticket {
        area,
        moment,
        twin: None,
    }
}

// Whether a ticket is the second device's part of another.
fn is_twin(ticket: Ticket, second: Ticket) -> bool
    ensures { IsTrue result ↔ (ticket.twin ≡ Some second.moment) × (second ≡ second_of ticket second.moment) }
{
    match ticket.twin {
        Some(moment) => second == one_device(ticket.area, moment),
        None => false,
    }
}
