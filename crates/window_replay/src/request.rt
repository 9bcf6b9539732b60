// A request's first nine words, where none of them is above its limit.
ghost use Rattle.std.specs.Prelude.{◌≤◌, IfOk};

pub const MOST_POOL: usize = 6150;

pub const MOST_WORDS: usize = 520;

pub const MOST_ORDERS: usize = 4096;

// What the nine words say, in their order; the table at the head of main.rt says what each is.
#[derive(Drop)]
pub struct Request {
    pub size: usize,
    pub fill: u64,
    pub count: usize,
    pub length: u64,
    pub orders: usize,
    pub room: usize,
    pub at: u64,
    pub word: u64,
    pub shown: usize,
    pub ghost size_fits: { size ≤ 6150 },
    pub ghost count_fits: { count ≤ 520 },
    pub ghost orders_fits: { orders ≤ 4096 },
    pub ghost room_fits: { room ≤ 520 },
    pub ghost shown_fits: { shown ≤ 6150 },
}

// A number is above its limit.
#[derive(Drop)]
pub struct AboveLimit;

// A number as a count, where it is not above the most.
fn within(number: u64, most: usize) -> Result<usize, AboveLimit>
    ensures { IfOk result (λ n. n ≤ most) }
{
    let number = number as usize;
    if most < number {
        return Err(AboveLimit);
    }
    Ok(number)
}

impl TryFrom<[u64; 9]> for Request {
    type Error = AboveLimit;

    fn try_from(head: [u64; 9]) -> Result<Request, AboveLimit> {
        let [size, fill, count, length, orders, room, at, word, shown] = head;
        Ok(Request {
            size: within(size, MOST_POOL)?,
            fill,
            count: within(count, MOST_WORDS)?,
            length,
            orders: within(orders, MOST_ORDERS)?,
            room: within(room, MOST_WORDS)?,
            at,
            word,
            shown: within(shown, MOST_POOL)?,
        })
    }
}
