// The first number of a list that stood earlier in it, for check 7 of R24: one pass sees whether all numbers differ, and where they do
// not a nested search finds the first that is repeated. Assumes nothing.
#![tactic(auto)]

ghost use Rattle.std.specs.Prelude.{◌≡◌, true, length};
ghost use Rattle.repeats.specs.Repeats.{first_again};

// Whether it was seen that all numbers differ, by a mark for each number that was met.
fn all_differ(numbers: &[u8]) -> bool
    ensures { result ≡ true → first_again numbers.now ≡ length numbers.now }
{
    let mut met = [false; 256];
    for number in numbers {
        let number = *number as usize;
        if met[number] {
            return false;
        }
        met[number] = true;
    }
    true
}

// The first place whose number stood earlier in the list. Its length if there is none: so `first_again` means it, and check 7 goes
// by it.
fn first_repeat(numbers: &[u8]) -> usize
    ensures { result ≡ first_again numbers.now }
{
    for (later, number) in numbers.iter().enumerate() {
        if numbers[..later].contains(number) {
            return later;
        }
    }
    numbers.len()
}

// The same, without a search over pairs where all numbers differ, as in every order that is accepted.
pub fn repeat_in(numbers: &[u8]) -> usize
    ensures { result ≡ first_again numbers.now }
{
    if all_differ(numbers) {
        return numbers.len();
    }
    first_repeat(numbers)
}
