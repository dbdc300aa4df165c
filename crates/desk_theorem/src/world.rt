//! A desk with visitors, moved by events.
ghost use Rattle.std.specs.Prelude.{◌≡◌, ◌≤◌, [], ◌∷◌, ◌++◌, length, take, map, replicate, IfOk, IfErr, OnOk, OnErr, Some};
ghost use Rattle.desk_model.specs.claim.Step.{step};
ghost use Rattle.http_desk.specs.seats.desk_gallery.claim.After.{after};
ghost use Rattle.desk_theorem.specs.claim.World.{move, world};
ghost use Rattle.desk_theorem.specs.Steps.{CommitMay, IsChanged, StepMay};

use crate::event::Event;
use desk_model::command::{Command, Query};
use desk_model::reply::{Refusal, Reply};
use desk_store_catalogue::catalogue::Catalogue;
use std::alloc::{AllocError, Global};
use std::marker::Model;
use std::sync::Arc;

/// A command and the catalogue after it.
#[derive(Drop)]
pub struct WorldChange {
    command: Command,
    catalogue: Arc<Catalogue>,
}

/// The first catalogue, the changes since then, the numbers of those acknowledged and shown, and
/// the number that each visitor knows.
#[derive(Drop)]
pub struct World {
    first: Arc<Catalogue>,
    changes: Vec<WorldChange>,
    acknowledged: usize,
    shown: usize,
    views: Vec<u64>,
}

impl Model for World {
    ghost use Rattle.std.specs.Prelude.{map};
    ghost use Rattle.desk_model.specs.claim.Desk.{Desk};
    ghost use Rattle.desk_theorem.specs.claim.World.{World as Standing, world};
    ghost use Rattle.desk_theorem.specs.claim.Law.{IsOrdered};
    ghost use Rattle.desk_theorem.specs.Steps.{Follow};
    ghost use Rattle.desk_theorem.specs.Codes.{coded_world};

    ghost Value = { Desk × Standing };

    ghost coded = { coded_world };

    ghost view = { λ a. (a.first.value, world (map (λ c. c.command) a.changes.items) a.acknowledged a.shown a.views.items) };

    ghost invariant = { λ a. Follow a.first.value a.changes.items × IsOrdered (world (map (λ c. c.command) a.changes.items) a.acknowledged a.shown a.views.items) };
}

impl World {
    /// The desk of a catalogue before any change, with visitors that know no change.
    pub fn new(alloc: Global, first: Arc<Catalogue>, visitors: usize) -> Result<World, AllocError>
        ensures { IfOk result (λ w. w ≡ (first.value, world [] 0 0 (replicate visitors 0))) }
    {
        let views = vec![in alloc; 0u64; visitors]?;
        Ok(World {
            first,
            changes: Vec::new(alloc),
            acknowledged: 0,
            shown: 0,
            views,
        })
    }

    /// Moves by an event and returns a visit's reply. If memory is refused to a commit or a visit,
    /// the reply says so and nothing changes.
    pub fn step(&mut self, alloc: Global, event: Event) -> Option<Reply>
        ensures first { self.new.0 ≡ self.old.0 }
        ensures moved { StepMay self.old.0 self.old.1 event result self.new.1 }
    {
        match event {
            Event::Commit(command) => self.commit(alloc, command),
            Event::Acknowledge => self.acknowledge(),
            Event::Show => self.show(),
            Event::Visit { visitor, query } => self.visit(alloc, visitor, query),
            Event::Learn { visitor, told } => self.learn(visitor, told),
            Event::Stop { kept } => self.stop(kept),
        }
    }

    /// Returns the catalogue after the first `number` changes.
    fn catalogue(&self, number: usize) -> &Catalogue
        requires { number ≤ length self.now.1.changes }
        ensures { result.now ≡ after self.now.0 (take number self.now.1.changes) }
    {
        if number == 0 {
            return &self.first;
        }
        &self.changes[number - 1].catalogue
    }

    /// Returns the catalogue after a change that may be written now, or the reply if none may.
    fn changed(&self, alloc: Global, command: &Command) -> Result<Arc<Catalogue>, Option<Reply>>
        ensures ok { IfOk result (λ c. IsChanged self.now.0 self.now.1 command.now c.value) }
        ensures err { IfErr result (λ told. CommitMay self.now.0 self.now.1 command.now told self.now.1) }
    {
        if self.shown != self.changes.len() {
            return Err(None);
        }
        let catalogue = match self.catalogue(self.shown).after(alloc, command) {
            Ok(catalogue) => catalogue,
            Err(Refusal::Memory) => return Err(Some(Reply::Refused(Refusal::Memory))),
            Err(_) => return Err(None),
        };
        match Arc::new(alloc, catalogue) {
            Ok(catalogue) => Ok(catalogue),
            Err(_) => Err(Some(Reply::Refused(Refusal::Memory))),
        }
    }

    /// Writes a change.
    fn commit(&mut self, alloc: Global, command: Command) -> Option<Reply>
        ensures first { self.new.0 ≡ self.old.0 }
        ensures moved { StepMay self.old.0 self.old.1 (Event.Commit command) result self.new.1 }
    {
        match self.changed(alloc, &command) {
            Ok(catalogue) => match self.join(WorldChange { command, catalogue }) {
                Ok(()) => None,
                Err(_) => Some(Reply::Refused(Refusal::Memory)),
            },
            Err(told) => told,
        }
    }

    /// Puts a change after the others.
    fn join(&mut self, change: WorldChange) -> Result<(), AllocError>
        requires { change.catalogue.value ≡ (step (after self.old.0 self.old.1.changes) change.command).1 }
        ensures ok { OnOk result (self.new ≡ (self.old.0, record self.old.1 { changes = self.old.1.changes ++ change.command ∷ [] })) }
        ensures err { OnErr result (self.new ≡ self.old) }
    {
        match self.changes.push(change) {
            Ok(()) => Ok(()),
            Err(_) => Err(AllocError),
        }
    }

    /// Acknowledges each change.
    fn acknowledge(&mut self) -> Option<Reply>
        ensures first { self.new.0 ≡ self.old.0 }
        ensures moved { StepMay self.old.0 self.old.1 Event.Acknowledge result self.new.1 }
    {
        self.acknowledged = self.changes.len();
        None
    }

    /// Shows what is acknowledged.
    fn show(&mut self) -> Option<Reply>
        ensures first { self.new.0 ≡ self.old.0 }
        ensures moved { StepMay self.old.0 self.old.1 Event.Show result self.new.1 }
    {
        self.shown = self.acknowledged;
        None
    }

    /// Answers a visitor by what is shown.
    fn visit(&mut self, alloc: Global, visitor: u64, query: Query) -> Option<Reply>
        ensures first { self.new.0 ≡ self.old.0 }
        ensures moved { StepMay self.old.0 self.old.1 (Event.Visit visitor query) result self.new.1 }
    {
        if visitor >= self.views.len() as u64 {
            return None;
        }
        let reply = self.catalogue(self.shown).ask(alloc, query);
        if !matches!(&reply, Reply::Refused(Refusal::Memory)) {
            self.views[visitor as usize] = self.shown as u64;
        }
        Some(reply)
    }

    /// Lets a visitor learn a number of changes.
    fn learn(&mut self, visitor: u64, told: u64) -> Option<Reply>
        ensures first { self.new.0 ≡ self.old.0 }
        ensures moved { StepMay self.old.0 self.old.1 (Event.Learn visitor told) result self.new.1 }
    {
        if told > self.shown as u64 || visitor >= self.views.len() as u64 {
            return None;
        }
        let known = self.views[visitor as usize];
        self.views[visitor as usize] = known.max(told);
        None
    }

    /// Keeps the first changes; no visitor knows of any then.
    fn stop(&mut self, kept: u64) -> Option<Reply>
        ensures first { self.new.0 ≡ self.old.0 }
        ensures moved { StepMay self.old.0 self.old.1 (Event.Stop kept) result self.new.1 }
    {
        if kept < self.acknowledged as u64 || kept > self.changes.len() as u64 {
            return None;
        }
        let kept = kept as usize;
        self.changes.truncate(kept);
        self.acknowledged = kept;
        self.shown = kept;
        self.views.fill(0);
        None
    }
}
