//! How long a connection is kept, by what it has asked and when. Times are in milliseconds.
ghost use Rattle.std.specs.Prelude.{◌≡◌, ◌⊎◌, ◌<◌, ◌≤◌, ◌+◌, ◌-◌, ◌*◌, true, false};
ghost use Rattle.http_desk_connections.specs.Paces.{new_pace, pace_at_turn, pace_with_bytes, pace_with_silence};
ghost use Rattle.http_desk_connections.specs.Paces.{fate_between, fate_within, fate_of, silence_of};

use http_wire::read_buffer::READ_BUFFER_LEN;

/// How long a read waits before it is judged whether the connection is kept, in milliseconds.
pub const SLICE: u64 = 100;

/// For how many seconds a connection is kept.
#[derive(Clone, Copy)]
pub struct Limits {
    /// That is silent between requests.
    pub keep: u32,
    /// That is silent within a request.
    pub idle: u32,
    /// From the first byte of a request until that has come whole.
    pub request: u32,
}

/// What becomes of a connection that brings nothing.
#[derive(Clone, Copy)]
pub enum TimeoutAction {
    /// It is waited for.
    Waits,
    /// It ends as at the end of its stream.
    GivesWay,
    /// It ends as one whose read failed.
    Fails,
}

/// What a connection has asked, and when.
#[derive(Clone, Copy)]
pub struct Pace {
    /// Bytes of a request have come that isn't answered.
    pub asks: bool,
    /// When the first byte of that request came.
    pub first: u64,
    /// When the last byte came.
    pub last: u64,
    /// How long nothing has come since, or since the last answer.
    pub silent: u64,
}

/// Between requests it is closed in favour of a waiting connection, and in any case after `keep`
/// idle seconds.
fn between(silent: u64, keep: u32, another_waits: bool) -> TimeoutAction
    ensures value { result ≡ fate_between silent keep another_waits }
    ensures short { result ≡ TimeoutAction.Waits → silent < keep * 1000 }
    ensures lets_go { result ≡ TimeoutAction.GivesWay → (another_waits ≡ true) ⊎ (keep * 1000 ≤ silent) }
{
    if another_waits || silent >= keep as u64 * 1_000 {
        return TimeoutAction::GivesWay;
    }
    TimeoutAction::Waits
}

/// Within a request it fails once it was silent for the idle seconds, or once the request took all of its own.
fn within(silent: u64, asking: u64, limits: &Limits) -> TimeoutAction
    ensures value { result ≡ fate_within silent asking limits.now }
    ensures short { result ≡ TimeoutAction.Waits → silent < limits.now.idle * 1000 }
    ensures timely { result ≡ TimeoutAction.Waits → asking < limits.now.request * 1000 }
    ensures keeps { result ≡ TimeoutAction.GivesWay → ⊥ }
{
    if silent >= limits.idle as u64 * 1_000 || asking >= limits.request as u64 * 1_000 {
        return TimeoutAction::Fails;
    }
    TimeoutAction::Waits
}

impl Pace {
    /// Before anything was asked.
    pub fn new() -> Pace
        ensures { result ≡ new_pace }
    {
        Pace {
            asks: false,
            first: 0,
            last: 0,
            silent: 0,
        }
    }

    /// Called before each read with the free buffer space. After a response, an empty buffer means
    /// that no request is pending; otherwise a part of the next request came with the last bytes.
    pub fn at_turn(&self, is_answered: bool, room: usize) -> Pace
        ensures { result ≡ pace_at_turn self.now is_answered room }
    {
        if !is_answered {
            return *self;
        }
        Pace {
            asks: room < READ_BUFFER_LEN,
            first: self.last,
            last: self.last,
            silent: 0,
        }
    }

    /// Bytes came at this time.
    pub fn with_bytes(&self, time: u64) -> Pace
        ensures { result ≡ pace_with_bytes self.now time }
    {
        let first = if self.asks { self.first } else { time };
        Pace {
            asks: true,
            first,
            last: time,
            silent: 0,
        }
    }

    /// Nothing came while a read waited.
    pub fn with_silence(&self) -> Pace
        ensures value { result ≡ pace_with_silence self.now }
        ensures short { result.silent ≤ self.now.silent + 100 }
    {
        Pace {
            asks: self.asks,
            first: self.first,
            last: self.last,
            silent: self.silent.saturating_add(SLICE),
        }
    }

    /// What becomes of it at this time.
    pub fn fate(&self, time: u64, another_waits: bool, limits: &Limits) -> TimeoutAction
        ensures value { result ≡ fate_of self.now time another_waits limits.now }
        ensures short { result ≡ TimeoutAction.Waits → self.now.silent < silence_of limits.now self.now.asks }
        ensures timely { result ≡ TimeoutAction.Waits → self.now.asks ≡ true → time - self.now.first < limits.now.request * 1000 }
        ensures lets_go { result ≡ TimeoutAction.GivesWay → (self.now.asks ≡ false) × ((another_waits ≡ true) ⊎ (limits.now.keep * 1000 ≤ self.now.silent)) }
    {
        if self.asks {
            return within(self.silent, time.saturating_sub(self.first), limits);
        }
        between(self.silent, limits.keep, another_waits)
    }
}
