//! Lists of numbers: delays of a turn, lanes of a salvo.

ghost use Rattle.std.specs.Prelude.{◌≡◌, IfOk, List, ℤ};
ghost use Rattle.std.specs.Coded.{coded_ℤ, coded_list};

use life_cells::NoMemory;
use std::alloc::Global;
use std::marker::Model;

/// A list of numbers.
#[derive(Debug, Drop)]
pub struct Numbers {
    items: Vec<i64>,
}

impl Model for Numbers {
    ghost Value = { List ℤ };

    ghost coded = { coded_list coded_ℤ };

    ghost view = { λ n. n.items.items };
}

impl Numbers {
    /// The list of these numbers.
    pub fn from_slice(alloc: Global, items: &[i64]) -> Result<Self, NoMemory>
        ensures { IfOk result (λ numbers. numbers ≡ items.now) }
    {
        let items = items.to_vec(alloc)?;
        Ok(Numbers { items })
    }

    /// The numbers. It takes no memory.
    pub fn items(&self) -> &[i64]
        ensures { result.now ≡ self.now }
    {
        &self.items
    }

    /// An equal list.
    pub fn copy(&self) -> Result<Self, NoMemory>
        ensures { IfOk result (λ numbers. numbers ≡ self.now) }
    {
        let items = self.items.clone()?;
        Ok(Numbers { items })
    }
}

impl PartialEq for Numbers {
    ghost use Rattle.std.specs.Ordering.{int_eq};
    ghost use Rattle.std.specs.Cmp.Lexicographic.{pointwise, lists_equiv};
    ghost use Rattle.std.specs.Cmp.{partial_equiv_from_equiv, int_eq_equiv};

    ghost eq = { pointwise int_eq };

    ghost laws = { partial_equiv_from_equiv (lists_equiv int_eq_equiv) };

    fn eq(&self, other: &Numbers) -> bool {
        self.items() == other.items()
    }
}

impl Eq for Numbers {
    ghost use Rattle.std.specs.Cmp.Lexicographic.{lists_equiv};
    ghost use Rattle.std.specs.Cmp.{int_eq_equiv};

    ghost laws = { lists_equiv int_eq_equiv };
}
