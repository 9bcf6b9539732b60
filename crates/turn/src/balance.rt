// A balance is right height less left height, a signed number from -2 to 2, and is stored as two more. A side is a bool
// here and not an enum, true for the left: the model's laws of both sides go by a Bool (model/specs/Side.antt).
ghost use Rattle.std.specs.Prelude.{ℕ, ◌≤◌, max, suc};
ghost use Rattle.turn.specs.Apart.{Apart, Within};
ghost use Rattle.turn.specs.Sites.{Stores};

// The balance that is stored as a number of at most 4, as the child on one side sees it: by how much that child is
// higher than the other.
pub fn seen(stored: u64, left: bool) -> i64
    requires { stored ≤ 4 }
    ensures { (x : ℕ) (y : ℕ) → Stores left x y stored → Apart result x y }
{
    let balance = stored as i64 - 2;
    if left {
        return -balance;
    }
    balance
}

// The number that a balance from -2 to 2 is stored as.
pub fn stored(balance: i64) -> u64
    requires { Within 2 balance }
    ensures { Apart balance result 2 }
{
    (balance + 2) as u64
}

// The height of a fork whose children have these heights, from -99 to 99. All are told against one height.
pub fn above(left: i64, right: i64) -> i64
    requires { (Within 99 left) × (Within 99 right) }
    ensures { (x : ℕ) (y : ℕ) (k : ℕ) → Apart left x k → Apart right y k → Apart result (suc (max x y)) k }
{
    left.max(right) + 1
}

// The number that a balance is stored as, which the child on one side sees so.
pub fn stored_from(balance: i64, left: bool) -> u64
    requires { Within 2 balance }
    ensures { (x : ℕ) (y : ℕ) → Apart balance x y → Stores left x y result }
{
    if left {
        return stored(-balance);
    }
    stored(balance)
}
