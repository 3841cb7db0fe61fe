// The known values, and the exposed facts that they come from.
ghost use Rattle.std.specs.Prelude.{◌≡◌, ◌↔◌, ◌++◌, ◌∷◌, [], IsTrue, IfSome, IfNone, Contains, IfOk, OnOk, OnErr, length, take, map, slice_get, option_copied, None, Some};
ghost use Rattle.meaning.specs.declared.types.Ground.{Ground as TheGround};
ghost use Rattle.meaning.specs.declared.types.Val.{Val as TheVal};
ghost use Rattle.meaning.specs.declared.types.Val.TheVariants.{Const};
ghost use Rattle.accessible_copy.specs.Known.{known_values, facts_of};

use crate::exposed_facts::ExposedFacts;
use crate::values::Values;
use lists::{Copies, NoMemory, Texts};
use meaning::types::{Ground, Val};
use std::alloc::Global;
use std::marker::Model;

/// Constants, exposed facts with the numbers of their methods beside them, and the values that these make known.
#[derive(Drop)]
pub struct Known {
    constants: Texts,
    methods: Vec<u32>,
    facts: ExposedFacts,
    values: Values,
}

impl Model for Known {
    ghost use Rattle.std.specs.Prelude.{◌≡◌, length};
    ghost use Rattle.accessible_copy.specs.Known.{Showing, known_values, shown_by};

    ghost Value = { Showing };

    ghost view = { λ k. record { constants = k.constants; exposed = shown_by k.methods.items k.facts } };

    ghost invariant = { λ k. (k.values ≡ known_values k.constants k.facts) × (length k.methods.items ≡ length k.facts) };
}

impl Known {
    /// The constants alone.
    pub fn start(alloc: Global, constants: &Texts) -> Result<Known, NoMemory>
        ensures { IfOk result (λ known. known ≡ record { constants = constants.now; exposed = [] }) }
    {
        Ok(Known {
            constants: constants.copy(alloc)?,
            methods: Vec::new(alloc),
            facts: ExposedFacts::new(alloc),
            values: constant_values(alloc, constants)?,
        })
    }

    /// How many facts are exposed. Takes no memory.
    pub fn len(&self) -> usize
        ensures { result ≡ length self.now.exposed }
    {
        self.facts.len()
    }

    /// How many values are known. Takes no memory.
    #[tactic(auto, using(crate::proofs::Beside::facts_shown))]
    pub fn width(&self) -> usize
        ensures { result ≡ length (known_values self.now.constants (facts_of self.now.exposed)) }
    {
        self.values.len()
    }

    /// The exposed fact with this number, and the number of its method. Takes no memory.
    pub fn get(&self, number: usize) -> Option<(&Ground, u32)>
        ensures some { IfSome result (λ pair. slice_get self.now.exposed number ≡ Some (record { method = pair.1; fact = pair.0.now })) }
        ensures none { IfNone result (slice_get self.now.exposed number ≡ None) }
    {
        match self.facts.get(number) {
            Some(fact) => Some((fact, self.methods[number])),
            None => None,
        }
    }

    /// The known value with this number. Takes no memory.
    #[tactic(auto, using(crate::proofs::Beside::facts_shown))]
    pub fn value(&self, number: usize) -> Option<&Val>
        ensures { option_copied result ≡ slice_get (known_values self.now.constants (facts_of self.now.exposed)) number }
    {
        self.values.get(number)
    }

    /// The known value with this number, if it is not known by an earlier one. Takes no memory.
    #[tactic(auto, using(crate::proofs::Beside::facts_shown))]
    pub fn new_value(&self, number: usize) -> Option<&Val>
        ensures some { IfSome result (λ val. slice_get (known_values self.now.constants (facts_of self.now.exposed)) number ≡ Some val.now) }
        ensures none { IfNone result ((val : TheVal) → slice_get (known_values self.now.constants (facts_of self.now.exposed)) number ≡ Some val →
            Contains (take number (known_values self.now.constants (facts_of self.now.exposed))) val) }
    {
        self.values.new_at(number)
    }

    /// Whether the fact is exposed. Takes no memory.
    #[tactic(auto, using(crate::proofs::Beside::facts_shown))]
    pub fn has(&self, fact: &Ground) -> bool
        ensures { IsTrue result ↔ Contains (facts_of self.now.exposed) fact.now }
    {
        self.facts.contains(fact)
    }

    /// Whether the value is known. Takes no memory.
    #[tactic(auto, using(crate::proofs::Beside::facts_shown))]
    pub fn knows(&self, val: &Val) -> bool
        ensures { IsTrue result ↔ Contains (known_values self.now.constants (facts_of self.now.exposed)) val.now }
    {
        self.values.contains(val)
    }

    /// One more exposed fact, which is not exposed yet. Where memory is refused, nothing changes.
    pub fn push(&mut self, alloc: Global, method: u32, fact: &Ground) -> Result<(), NoMemory>
        requires new { Contains (facts_of self.old.exposed) fact.now → ⊥ }
        ensures pushed { OnOk result (self.new ≡ record self.old { exposed = self.old.exposed ++ record { method = method; fact = fact.now } ∷ [] }) }
        ensures refused { OnErr result (self.new ≡ self.old) }
    {
        let count = self.facts.len();
        let shown = fact.copy(alloc)?;
        self.methods.push(method)?;
        if let Err(fault) = self.facts.push(alloc, shown) {
            self.methods.truncate(count);
            return Err(fault);
        }
        match self.values.add_all(alloc, fact.vals.as_slice()) {
            Ok(()) => Ok(()),
            Err(fault) => {
                self.methods.truncate(count);
                self.facts.truncate(count);
                Err(fault)
            }
        }
    }

    /// Drops all exposed facts behind the first `count`, which make `width` values known. Takes no memory.
    pub fn truncate(&mut self, count: usize, width: usize)
        requires { width ≡ length (known_values self.old.constants (facts_of (take count self.old.exposed))) }
        ensures { self.new ≡ record self.old { exposed = take count self.old.exposed } }
    {
        self.methods.truncate(count);
        self.facts.truncate(count);
        self.values.truncate(width);
    }
}

/// Each text as a constant.
fn constant_values(alloc: Global, constants: &Texts) -> Result<Values, NoMemory>
    ensures { IfOk result (λ values. values ≡ map Const constants.now) }
{
    let mut values = Values::new(alloc);
    for text in constants.as_slice() {
        values.push(alloc, Val::Const(text.copy(alloc)?))?;
    }
    Ok(values)
}
