ghost use Rattle.std.specs.Prelude.{◌≡◌, ◌≤◌, IfOk};
ghost use Rattle.disk_model.specs.Causes.{CauseOf};
ghost use Rattle.disk_model.specs.declared.device_error.DeviceError.TheVariants.{Fault};
ghost use Rattle.disk_model.specs.declared.limits.TheConstants.{DEVICE_MAX};

use crate::{DeviceError, FaultBook};
use std::alloc::{AllocError, Global};
use std::marker::Model;

/// What a device in memory counts: its calls, of which those with the numbers of a list are to fail, and in its book
/// those that did.
#[derive(Drop)]
pub(crate) struct Tally {
    book: FaultBook,
    failing: Vec<u64>,
    calls: u64,
}

impl Model for Tally {
    ghost use Rattle.disk_model.specs.Tallies.{TallyState};

    ghost Value = { TallyState };

    ghost view = { λ t. record { book = t.book; failing = t.failing.items; calls = t.calls } };
}

impl Tally {
    ghost use Rattle.disk_model.specs.Tallies.{is_listed, counted, restarted};

    /// No call was made. Those with the numbers in `failing` are to fail, counted from 0.
    pub(crate) fn new(alloc: Global, device: u8, failing: Vec<u64>) -> Result<Tally, AllocError>
        requires { device ≤ DEVICE_MAX }
        ensures failing { IfOk result (λ tally. tally.failing ≡ failing.items) }
        ensures calls { IfOk result (λ tally. tally.calls ≡ 0) }
        ensures device { IfOk result (λ tally. tally.book.name.device ≡ device) }
        ensures faults { IfOk result (λ tally. tally.book.count ≡ 0) }
    {
        Ok(Tally {
            book: FaultBook::new(alloc, device)?,
            failing,
            calls: 0,
        })
    }

    /// How many calls were made.
    pub(crate) fn calls(&self) -> u64
        ensures { result ≡ self.now.calls }
    {
        self.calls
    }

    /// How many units were drawn.
    pub(crate) fn faults(&self) -> u64
        ensures { result ≡ self.now.book.count }
    {
        self.book.count()
    }

    /// Counts a call, and answers whether it is to fail.
    pub(crate) fn begin(&mut self) -> bool
        ensures listed { result ≡ is_listed self.old }
        ensures state { self.new ≡ counted self.old }
    {
        let listed = self.failing.as_slice().contains(&self.calls);
        self.calls = self.calls.saturating_add(1);
        listed
    }

    /// Draws a unit. It takes no memory.
    pub(crate) fn fail(&mut self, alloc: Global) -> DeviceError
        ensures drawn { result ≡ Fault self.old.book.name }
        ensures cause { CauseOf self.old.book.name self.old.book.count self.new.book.count result }
        ensures later { self.old.book.count ≤ self.new.book.count }
        ensures name { self.new.book.name ≡ self.old.book.name }
        ensures failing { self.new.failing ≡ self.old.failing }
        ensures calls { self.new.calls ≡ self.old.calls }
    {
        self.book.fail(alloc)
    }

    /// After a crash no call is to fail, and calls count from 0.
    pub(crate) fn restart(&mut self)
        ensures { self.new ≡ restarted self.old }
    {
        self.failing.clear();
        self.calls = 0;
    }
}
