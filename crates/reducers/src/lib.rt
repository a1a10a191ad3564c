#![tactic(auto)]
// The reducers of document 02's R-5, each a monoid whose values are views; a frame's view has one of each. Joined, the earlier one stands on
// the left.
ghost use Rattle.std.specs.Prelude.{◌≡◌};
ghost use Rattle.reducers.specs.Law.{Law, SumWord, MinWord, AffineWord, ViewWord};
ghost use Rattle.reducers.specs.Reducers.{identity_sum, join_sum, identity_min, join_min, identity_affine, join_affine, folded_sum, folded_min, folded_affine, identity_view, join_view, fold_view, number, Numbers};
ghost use Rattle.words.specs.Below.{plus_word};
ghost use Rattle.reducers.specs.Theory.Modulo.{affine_twice};
ghost use Rattle.reducers.specs.Theory.Laws.{sum_law, min_law, times_word, affine_law_by, view_law_by};

// "Each operation has an identity that changes nothing when combined on either side, and grouping never matters", of the views that are words.
pub trait Monoid: Copy {
    ghost is_word: { Self → Type 0 };

    ghost IDENTITY: { Self };

    ghost op: { Self → Self → Self };

    const IDENTITY: Self;

    fn join(self, later: Self) -> Self
        ensures { result ≡ op self later };

    // What each `impl` must prove.
    ghost laws: { Law Self is_word IDENTITY op };
}

// The sum modulo 4,294,967,296.
#[repr(C)]
#[derive(Clone, Copy, PartialEq, Eq)]
pub struct Sum {
    pub value: u32,
}

impl Monoid for Sum {
    ghost is_word = { SumWord };

    ghost IDENTITY = { identity_sum };

    ghost op = { join_sum };

    const IDENTITY: Sum = Sum { value: 0 };

    fn join(self, later: Sum) -> Sum {
        Sum {
            value: self.value.wrapping_add(later.value),
        }
    }

    ghost laws = { sum_law };
}

impl From<u32> for Sum {
    ghost from_gives = { λ value sum. sum ≡ folded_sum value };

    fn from(value: u32) -> Sum {
        Sum { value }
    }
}

// The minimum.
#[repr(C)]
#[derive(Clone, Copy, PartialEq, Eq)]
pub struct Min {
    pub value: u32,
}

impl Monoid for Min {
    ghost is_word = { MinWord };

    ghost IDENTITY = { identity_min };

    ghost op = { join_min };

    const IDENTITY: Min = Min { value: u32::MAX };

    fn join(self, later: Min) -> Min {
        if later.value < self.value {
            later
        } else {
            self
        }
    }

    ghost laws = { min_law };
}

impl From<u32> for Min {
    ghost from_gives = { λ value min. min ≡ folded_min value };

    fn from(value: u32) -> Min {
        Min { value }
    }
}

// The affine map, multiply then add, modulo 4,294,967,296.
#[repr(C)]
#[derive(Clone, Copy, PartialEq, Eq)]
pub struct Affine {
    pub multiplier: u32,
    pub addend: u32,
}

impl Monoid for Affine {
    ghost is_word = { AffineWord };

    ghost IDENTITY = { identity_affine };

    ghost op = { join_affine };

    const IDENTITY: Affine = Affine {
        multiplier: 1,
        addend: 0,
    };

    // "earlier map applied first"
    fn join(self, later: Affine) -> Affine {
        let scaled = self.addend.wrapping_mul(later.multiplier);
        Affine {
            multiplier: self.multiplier.wrapping_mul(later.multiplier),
            addend: scaled.wrapping_add(later.addend),
        }
    }

    ghost laws = { affine_law_by join_affine (λ a b. (times_word _ _, plus_word _ _)) (λ a b x. affine_twice 4294967296 x a.multiplier a.addend b.multiplier b.addend) };
}

// "the value divided by 65,536 is the multiplier and its remainder the addend"
impl From<u32> for Affine {
    ghost from_gives = { λ value affine. affine ≡ folded_affine value };

    fn from(value: u32) -> Affine {
        Affine {
            multiplier: value / 65536,
            addend: value % 65536,
        }
    }
}

impl Affine {
    // A value folded in place. Kept apart, so that the compiler reads a record's value with one load and not by its halves.
    #[inline(never)]
    fn fold_in(&mut self, value: u32)
        ensures { self.new ≡ join_affine self.old (folded_affine value) }
    {
        let joined = self.join(Affine::from(value));
        self.multiplier = joined.multiplier;
        self.addend = joined.addend;
    }
}

// What a frame has folded, of each reducer.
#[repr(C)]
#[derive(Clone, Copy, PartialEq, Eq)]
pub struct View {
    pub sum: Sum,
    pub min: Min,
    pub affine: Affine,
}

impl Monoid for View {
    ghost is_word = { ViewWord };

    ghost IDENTITY = { identity_view };

    ghost op = { join_view };

    const IDENTITY: View = View {
        sum: Sum { value: 0 },
        min: Min { value: u32::MAX },
        affine: Affine {
            multiplier: 1,
            addend: 0,
        },
    };

    fn join(self, later: View) -> View {
        View {
            sum: self.sum.join(later.sum),
            min: self.min.join(later.min),
            affine: self.affine.join(later.affine),
        }
    }

    ghost laws = { view_law_by (affine_law_by join_affine (λ a b. (times_word _ _, plus_word _ _)) (λ a b x. affine_twice 4294967296 x a.multiplier a.addend b.multiplier b.addend)) };
}

// The reducers, numbered in this order.
#[derive(Clone, Copy, PartialEq, Eq)]
pub enum Reducer {
    Sum,
    Min,
    Affine,
}

// A number that names no reducer.
#[derive(Clone, Copy, PartialEq, Eq)]
pub struct UnknownReducer(pub u32);

impl TryFrom<u32> for Reducer {
    type Error = UnknownReducer;

    ghost try_from_gives = { Numbers };

    fn try_from(number: u32) -> Result<Reducer, UnknownReducer> {
        match number {
            0 => Ok(Reducer::Sum),
            1 => Ok(Reducer::Min),
            2 => Ok(Reducer::Affine),
            _ => Err(UnknownReducer(number)),
        }
    }
}

impl View {
    // A value folded into a reducer, in place: no other reducer's words are read or stored.
    #[tactic(auto, unfolding(crate::specs::Reducers::fold_view))]
    fn renew(&mut self, reducer: Reducer, value: u32)
        ensures { self.new ≡ fold_view self.old (number reducer) value }
    {
        match reducer {
            Reducer::Sum => self.sum.value = self.sum.join(Sum::from(value)).value,
            Reducer::Min => self.min.value = self.min.join(Min::from(value)).value,
            Reducer::Affine => self.affine.fold_in(value),
        }
    }

    // The value v folded into reducer r in place; a number that names no reducer folds nothing.
    pub fn fold_in(&mut self, r: u32, v: u32)
        ensures { self.new ≡ fold_view self.old r v }
    {
        if let Ok(reducer) = Reducer::try_from(r) {
            self.renew(reducer, v);
        }
    }

    // A value folded into a reducer.
    pub fn fold(self, reducer: Reducer, value: u32) -> View
        ensures { result ≡ fold_view self (number reducer) value }
    {
        let mut view = self;
        view.renew(reducer, value);
        view
    }

    // The value v folded into reducer r; a number that names no reducer folds nothing.
    pub fn folded(w: View, r: u32, v: u32) -> View
        ensures { result ≡ fold_view w r v }
    {
        let mut view = w;
        view.fold_in(r, v);
        view
    }
}
