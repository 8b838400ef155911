//! The steps of a list: the fitting offers line up, and are costed in turn until taking ends.
ghost use Rattle.std.specs.Prelude.{◌≡◌, ◌≤◌, length, take};
ghost use Rattle.tariff.specs.Totals.{meaning};
ghost use Rattle.catalogue.specs.Held.{held};
ghost use Rattle.stages.specs.Stages.{gathering};
ghost use Rattle.ranking.specs.Queues.{queue};
ghost use Rattle.ranking.specs.Costing.{Taken};
ghost use Rattle.ranking.specs.Steps.{gathered};
ghost use Rattle.listing.specs.Requests.{offers_for};

use crate::request::Request;
use ordered::put;
use ranking::{Queued, taking_ends};
use stages::{Gathering, Line};
use tariff::Tariff;

impl<T: Tariff> Request<'_, T> {
    // Writes the fitting places with their floors, by floor, then place, and says how many there are.
    pub(crate) fn line_up(&self, waiting: &mut [Queued]) -> usize
        requires { length (held self.now.catalogue.now) ≤ length waiting.old }
        ensures within { result ≤ length (held self.now.catalogue.now) }
        ensures queued { take result waiting.new ≡ queue (offers_for (meaning T.served T.drawn T.charged T.floor) self.now) }
    {
        // How many are held stands beside the memory that is lent, as `put` takes it.
        let mut count = 0;
        for place in 0..self.catalogue.places() {
            if let Some(floor) = self.floor_at(place) {
                put(waiting, count, Queued { floor, place }).unwrap();
                count += 1;
            }
        }
        count
    }

    // Costs the offers of the queue in turn and puts their lines, until taking ends.
    pub(crate) fn gather(
        &self,
        waiting: &[Queued],
        begun: Gathering,
        memory: &mut [Line],
    ) -> Gathering
        requires queued { waiting.now ≡ queue (offers_for (meaning T.served T.drawn T.charged T.floor) self.now) }
        requires room { length waiting.now ≤ length memory.old }
        requires fresh { begun ≡ gathering self.now.enquiry.now.length 0 }
        ensures stage { result ≡ gathering self.now.enquiry.now.length result.held }
        ensures taken { Taken self.now.enquiry.now.length (offers_for (meaning T.served T.drawn T.charged T.floor) self.now) waiting.now result.held }
        ensures lines { take result.held memory.new ≡ gathered (offers_for (meaning T.served T.drawn T.charged T.floor) self.now) (take result.held waiting.now) }
    {
        let mut stage = begun;
        for (costed, next) in waiting.iter().enumerate() {
            if taking_ends(&memory[..costed], self.enquiry.length, next.floor) {
                return stage;
            }
            let line = Line {
                total: self.total_at(next.place).unwrap(),
                place: next.place,
            };
            stage = stage.put(memory, line).unwrap();
        }
        stage
    }
}
