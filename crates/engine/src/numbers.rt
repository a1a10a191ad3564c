// The state's numbers and totals in their lent words.
ghost use Rattle.std.specs.Prelude.{◌≡◌, cond, eqb, get_or, set, replicate};
ghost use Rattle.words.specs.Basics.{none, all};
ghost use Rattle.soundness.specs.Numbers.{numbers_in, number_words, totals_in, total_count};
ghost use Rattle.reducers.specs.Reducers.{view_words};

use frames::NONE;
use image::NUMBER_COUNT;
use reducers::View;
use soundness::Numbers;

pub fn numbers_in(numbers: &[u32; NUMBER_COUNT]) -> Numbers
    ensures { result ≡ numbers_in numbers.now }
{
    Numbers {
        workers: numbers[0],
        splitters: numbers[1],
        nodes: numbers[2],
        free_node: numbers[3],
        free_place: numbers[4],
        places: numbers[9],
    }
}

// The totals are zero: no search has ended.
pub fn put_numbers(numbers: &mut [u32; NUMBER_COUNT], n: Numbers)
    ensures { numbers.new ≡ number_words n (replicate total_count 0) }
{
    *numbers = [
        n.workers,
        n.splitters,
        n.nodes,
        n.free_node,
        n.free_place,
        0,
        0,
        0,
        0,
        n.places,
    ];
}

// The first free node and the first free place, which alone change in a run.
pub fn put_free(numbers: &mut [u32; NUMBER_COUNT], node: u32, place: u32)
    ensures { numbers.new ≡ set (set numbers.old 3 node) 4 place }
{
    numbers[3] = node;
    numbers[4] = place;
}

// Main's view, at its end.
pub fn put_totals(numbers: &mut [u32; NUMBER_COUNT], view: View)
    ensures { (totals_in numbers.new ≡ view_words view) × (numbers_in numbers.new ≡ numbers_in numbers.old) }
{
    numbers[5] = view.sum.value;
    numbers[6] = view.min.value;
    numbers[7] = view.affine.multiplier;
    numbers[8] = view.affine.addend;
}

// A frame ends: if it is Main, its view becomes the totals.
pub fn end_totals(numbers: &mut [u32; NUMBER_COUNT], parent: u32, view: View)
    ensures { (totals_in numbers.new ≡ cond (eqb parent none) (view_words view) (totals_in numbers.old)) × (numbers_in numbers.new ≡ numbers_in numbers.old) }
{
    if parent == NONE {
        put_totals(numbers, view);
    }
}

// Are all four zero?
pub fn totals_zero(numbers: &[u32; NUMBER_COUNT]) -> bool
    ensures { result ≡ all total_count (λ i. eqb (get_or (totals_in numbers.now) i 0) 0) }
{
    numbers[5] == 0 && numbers[6] == 0 && numbers[7] == 0 && numbers[8] == 0
}
