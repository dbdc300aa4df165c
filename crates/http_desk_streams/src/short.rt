//! Short bodies, put together in a buffer that was made first, so that they take no memory.
ghost use Rattle.std.specs.Prelude.{◌≡◌, ◌≤◌, ◌+◌, [], length, decimal, codes, IfOk};
ghost use Rattle.http_wire.specs.Adding.{Adds};
ghost use Rattle.http_desk_streams.specs.claim.Bodies.{created_body, retired_body, error_body, refusal_body};
ghost use Rattle.desk_model.specs.claim.Padded.{padded_decimal};
ghost use Rattle.desk_model.specs.declared.reply.Refusal.TheVariants.{BadBody, Stale, NotWholeCounty};

use desk_model::decimal::Padded;
use desk_model::name::PlanName;
use desk_model::reply::{BodyFault, Refusal};
use itoa::Buffer;
use std::alloc::{AllocError, Global};
use std::marker::Model;

/// Room for a short body, in bytes.
const SHORT: usize = 112;

/// A short body, with all the room that it ever takes.
#[derive(Drop)]
pub struct ShortText {
    bytes: Vec<u8>,
}

impl Model for ShortText {
    ghost use Rattle.std.specs.Prelude.{List, ℕ, ◌≤◌, vec_capacity, vec_len};

    ghost Value = { List ℕ };

    ghost view = { λ t. t.bytes.items };

    ghost invariant = { λ t. (112 ≤ vec_capacity t.bytes) × (vec_len t.bytes ≤ 112) };
}

impl ShortText {
    /// An empty one, with all the room that it ever takes.
    pub fn new(alloc: Global) -> Result<ShortText, AllocError>
        ensures { IfOk result (λ text. text ≡ []) }
    {
        Ok(ShortText {
            bytes: Vec::with_capacity(alloc, SHORT)?,
        })
    }

    /// The text.
    pub fn as_slice(&self) -> &[u8]
        ensures { result.now ≡ self.now }
    {
        self.bytes.as_slice()
    }

    /// Puts words in place of what was there.
    fn begin(&mut self, words: &[u8])
        requires { length words.now ≤ 112 }
        ensures { Adds (length words.now) words.now [] self.new }
    {
        self.bytes.clear();
        let _ = self.bytes.extend_from_slice(words);
    }

    /// Appends words.
    fn put(&mut self, words: &[u8])
        requires { length self.old + length words.now ≤ 112 }
        ensures { Adds (length words.now) words.now self.old self.new }
    {
        let _ = self.bytes.extend_from_slice(words);
    }

    /// Appends a number.
    fn put_number(&mut self, number: u64)
        requires { length self.old + 20 ≤ 112 }
        ensures { Adds 20 (decimal number) self.old self.new }
    {
        let mut digits = Buffer::new();
        self.put(digits.format(number).as_bytes());
    }

    /// Puts three digits, or more where the number has more.
    #[tactic(auto, using(crate::proofs::ShortLemmas::padded_short))]
    fn put_three_digits(&mut self, number: u16)
        requires { length self.old + 22 ≤ 112 }
        ensures { Adds 22 (padded_decimal 3 number) self.old self.new }
    {
        self.put(Padded::new(number as u64, 3).as_slice());
    }

    /// Appends that a plan has this number of revisions.
    pub fn put_created(&mut self, plan: &PlanName, revisions: u32)
        ensures { self.new ≡ created_body plan.now revisions }
    {
        self.begin(b"{\"plan\":\"");
        self.put(plan.as_slice());
        self.put(b"\",\"revisions\":");
        self.put_number(revisions as u64);
        self.put(b"}");
    }

    /// Appends that a plan was deleted.
    pub fn put_retired(&mut self, plan: &PlanName)
        ensures { self.new ≡ retired_body plan.now }
    {
        self.begin(b"{\"plan\":\"");
        self.put(plan.as_slice());
        self.put(b"\",\"retired\":true}");
    }

    /// An error by its name.
    pub fn put_error(&mut self, name: &[u8])
        requires { length name.now ≤ 64 }
        ensures { self.new ≡ error_body name.now }
    {
        self.begin(b"{\"error\":\"");
        self.put(name);
        self.put(b"\"}");
    }

    /// A body's first fault and its line.
    #[tactic(auto, using(crate::proofs::ShortLemmas::code_short))]
    fn put_bad_body(&mut self, fault: BodyFault, line: u64)
        ensures { self.new ≡ refusal_body (BadBody fault line) }
    {
        self.begin(b"{\"code\":\"");
        self.put(fault.code().as_bytes());
        self.put(b"\",\"error\":\"BadBody\",\"line\":");
        self.put_number(line);
        self.put(b"}");
    }

    /// The number of revisions that a stale command found.
    fn put_stale(&mut self, current: u32)
        ensures { self.new ≡ refusal_body (Stale current) }
    {
        self.begin(b"{\"current\":");
        self.put_number(current as u64);
        self.put(b",\"error\":\"Stale\"}");
    }

    /// The least county of which only a part is listed.
    fn put_county(&mut self, county: u16)
        ensures { self.new ≡ refusal_body (NotWholeCounty county) }
    {
        self.begin(b"{\"county\":\"");
        self.put_three_digits(county);
        self.put(b"\",\"error\":\"NotWholeCounty\"}");
    }

    /// Why a command or a query is refused.
    pub fn put_refusal(&mut self, refusal: Refusal)
        ensures { self.new ≡ refusal_body refusal }
    {
        match refusal {
            Refusal::NoPlan => self.put_error(b"NoPlan"),
            Refusal::NoRevision => self.put_error(b"NoRevision"),
            Refusal::PlanExists => self.put_error(b"PlanExists"),
            Refusal::Stale { current } => self.put_stale(current),
            Refusal::BadBody { code, line } => self.put_bad_body(code, line),
            Refusal::NotWholeCounty { county } => self.put_county(county),
            Refusal::BadCompanion => self.put_error(b"BadCompanion"),
            Refusal::Limit => self.put_error(b"Limit"),
            Refusal::Full => self.put_error(b"Full"),
            Refusal::Memory => self.put_error(b"Memory"),
            Refusal::Halted => self.put_error(b"Halted"),
            Refusal::NotSealed => self.put_error(b"NotSealed"),
        }
    }
}
