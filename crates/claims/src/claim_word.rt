// A word from which passes claim numbers, over a table of one atomic word.
ghost use Rattle.std.specs.Prelude.{◌≡◌, ◌<◌, ◌≤◌, ◌+◌, ◌-◌, ◌++◌, ℕ, [], ◌∷◌, IfOk};
ghost use Rattle.claims.specs.ClaimWord.{KnowsWhole, pass_state};

use answers::Memory;
use atomic_table::{Join, Play, Seat, Split, Table, TableRule};
use std::alloc::Global;
use std::collections::LinkedList;
use std::marker::{Brand, Model, PhantomData};

// How many parts all passes have together.
pub(crate) const ALL_PARTS: u32 = 64;

// What the holder of a seat has: its parts, and the numbers that it claimed. It exists in proofs
// alone.
pub struct Holding {
    pub parts: u64,
    pub claimed: LinkedList<u64>,
}

// The rule of the claim word.
pub struct ClaimRule;

impl TableRule<(), Holding, ()> for ClaimRule {
    ghost use Rattle.claims.specs.ClaimWord.{KeepsClaims, holding};
    ghost use Rattle.std.specs.Prelude.{[]};

    ghost holds = { λ _ s. KeepsClaims s.words s.views };

    ghost first = { λ _. holding 64 [] };
}

// The step that claims a number.
pub struct Claiming;

impl Play<(), Holding> for Claiming {
    ghost use Rattle.claims.specs.ClaimWord.{Claimed};
    ghost use Rattle.std.specs.Prelude.{◌≡◌};

    ghost then = { λ _ me n after. Claimed me.0 n after.0 × (after.1 ≡ me.1) };
}

// The step that only reads the word, after a join.
pub struct Looking;

impl Play<(), Holding> for Looking {
    ghost use Rattle.claims.specs.ClaimWord.{Looked};
    ghost use Rattle.std.specs.Prelude.{◌≡◌};

    ghost then = { λ _ me _ after. Looked me.0 after.0 × (after.1 ≡ me.1) };
}

// How many parts a split gives away. Each call picks it.
pub trait Given {
    ghost given: { ℕ };
}

impl Given for Brand {
    ghost given = { 1 };
}

// The step that splits a seat.
pub struct Splitting<P: Given>(PhantomData<P>);

impl<P: Given> Split<Holding> for Splitting<P> {
    ghost use Rattle.claims.specs.ClaimWord.{holding};
    ghost use Rattle.std.specs.Prelude.{[], ◌-◌};

    ghost left = { λ h. holding (h.parts - P.given) h.claimed };

    ghost right = { λ h. holding P.given [] };
}

// The step that joins two seats.
pub struct Joining;

impl Join<Holding> for Joining {
    ghost use Rattle.claims.specs.ClaimWord.{holding};
    ghost use Rattle.std.specs.Prelude.{[], ◌+◌, ◌++◌};

    ghost both = { λ h other. holding (h.parts + other.parts) (h.claimed ++ other.claimed) };

    ghost spent = { holding 0 [] };
}

/// One word, from which passes claim numbers. Threads may share it.
#[derive(Drop)]
pub struct Claims {
    table: Table<(), Holding, (), ClaimRule, Global>,
}

impl Model for Claims {
    ghost use Rattle.atomic_table.specs.Seated.{TableId};
    ghost use Rattle.std.specs.Prelude.{◌≡◌};

    ghost Value = { TableId };

    ghost view = { λ c. c.table.shared.table_id };

    ghost invariant = { λ c. c.table.shared.table_id.words ≡ 1 };
}

/// The right to claim numbers from a claim word, in some of 64 parts. Contracts see it as the claim
/// word that it belongs to, its number of parts, and the list of the numbers that it claimed; the
/// list takes no memory.
#[derive(Drop)]
pub struct Pass {
    seat: Seat<(), Holding>,
    parts: u32,
}

impl Model for Pass {
    ghost use Rattle.claims.specs.ClaimWord.{PassState, pass_state};
    ghost use Rattle.std.specs.Prelude.{◌≡◌, ◌<◌, ◌≤◌, []};

    ghost Value = { PassState };

    ghost view = { λ p. pass_state p.seat.table_id p.parts p.seat.me.0.claimed };

    ghost invariant = { λ p. (p.seat.me.0.parts ≡ p.parts)
        × (0 < p.parts)
        × (p.parts ≤ 64)
        × (p.seat.me.1 ≡ []) };
}

impl Claims {
    /// A claim word at 0, and the pass with all 64 parts, which has claimed nothing.
    ///
    /// # Errors
    ///
    /// Memory ran out.
    pub fn new(alloc: Global) -> Result<(Claims, Pass), Memory>
        ensures { IfOk result (λ r. r.1 ≡ pass_state r.0 64 []) }
    {
        let (table, seat) = Table::<(), Holding, (), ClaimRule, Global>::of_words(
            alloc,
            &[0],
            &(),
        )?;
        Ok((
            Claims { table },
            Pass {
                seat,
                parts: ALL_PARTS,
            },
        ))
    }

    /// Claims the next number. Takes no memory, and waits for nobody.
    pub fn claim(&self, pass: &mut Pass) -> u64
        requires own { pass.old.claims ≡ self.now }
        ensures claimed { pass.new
            ≡ pass_state self.now pass.old.parts (pass.old.claimed ++ result ∷ []) }
        ensures whole { KnowsWhole pass.new.parts pass.new.claimed }
    {
        let word = &self.table.shared;
        word.fetch_add::<Claiming>(&mut pass.seat, 0, 1)
    }

    /// A further pass, with so many of the pass's parts. The pass keeps the others, and its list.
    pub fn split(&self, pass: &mut Pass, parts: u32) -> Pass
        requires own { pass.old.claims ≡ self.now }
        requires parts { (1 ≤ parts) × (parts < pass.old.parts) }
        ensures given { result ≡ pass_state self.now parts [] }
        ensures kept { pass.new ≡ pass_state self.now (pass.old.parts - parts) pass.old.claimed }
    {
        self.split_as::<Brand>(pass, parts)
    }

    /// Puts two passes together: the other's list after the pass's own, and its parts to the
    /// pass's.
    pub fn join(&self, pass: &mut Pass, other: Pass)
        requires own { (pass.old.claims ≡ self.now) × (other.claims ≡ self.now) }
        ensures joined { pass.new
            ≡ pass_state self.now
            (pass.old.parts + other.parts)
            (pass.old.claimed ++ other.claimed) }
        ensures whole { KnowsWhole pass.new.parts pass.new.claimed }
    {
        let Pass { seat, parts } = other;
        self.table.shared.join_seat::<Joining>(&mut pass.seat, seat);
        self.table.shared.load::<Looking>(&mut pass.seat, 0);
        pass.parts += parts;
    }

    // `split`, where the number of parts is one that proofs can name.
    fn split_as<P: Given>(&self, pass: &mut Pass, parts: u32) -> Pass
        requires own { pass.old.claims ≡ self.now }
        requires parts { (parts ≡ P.given) × (1 ≤ parts) × (parts < pass.old.parts) }
        ensures given { result ≡ pass_state self.now parts [] }
        ensures kept { pass.new ≡ pass_state self.now (pass.old.parts - parts) pass.old.claimed }
    {
        let seat = self.table.shared.split_seat::<Splitting<P>>(&mut pass.seat);
        pass.parts -= parts;
        Pass { seat, parts }
    }
}

impl Pass {
    /// The number of parts.
    pub fn parts(&self) -> u32
        ensures is { result ≡ self.now.parts }
        ensures range { (1 ≤ result) × (result ≤ 64) }
    {
        self.parts
    }
}
