// Bounded stacks: what an open loop, a frame and at most two of them are, and the values in a lent array.
#![tactic(auto)]

ghost use Rattle.std.specs.Prelude.{◌≡◌};
ghost use Rattle.inlinevec.specs.Stacks.{stacked, push, pop, last, last_two, push_onto, pop_off, last_on};

use errors::Refusal;
use pools::InstructionsRef;

// The values that the stack holds at most.
const STACK_VALUES: usize = 1000;

// An open loop: the place after its DO, its index and its limit.
#[derive(Clone, Copy)]
pub struct Loop {
    pub place: usize,
    pub index: u32,
    pub limit: u32,
}

// Where a run stands: a place in an entry of the pool.
#[derive(Clone, Copy)]
pub struct Frame {
    pub entry: InstructionsRef,
    pub place: usize,
}

// A stack of at most two, by value: how many places are taken, and the two places, the last one behind the first.
#[derive(Clone, Copy)]
pub struct Two<T> {
    pub count: usize,
    pub first: T,
    pub second: T,
}

// The open loops: the outer one first.
pub type Loops = Two<Loop>;

// The frames: main first, the task that it called behind it.
pub type Frames = Two<Frame>;

// One value more.
#[tactic(auto, unfolding(crate::specs::Stacks::push, crate::specs::Stacks::if_room))]
pub fn push(stack: &mut [u64; 1000], height: usize, value: u64) -> Result<usize, Refusal>
    ensures { stacked result stack.new ≡ push stack.old height value }
{
    if height < STACK_VALUES {
        stack[height] = value;
        return Ok(height + 1);
    }
    Err(Refusal::StackOverflow)
}

// One value less, which stays in the array.
#[tactic(auto, unfolding(crate::specs::Stacks::pop, crate::specs::Stacks::if_some))]
pub fn pop(stack: &[u64; 1000], height: usize) -> Result<(u64, usize), Refusal>
    ensures { result ≡ pop stack.now height }
{
    if height == 0 {
        return Err(Refusal::StackUnderflow);
    }
    if STACK_VALUES < height {
        return Err(Refusal::WrongPhaseOrUnsound);
    }
    let left = height - 1;
    Ok((stack[left], left))
}

// The value on top.
#[tactic(auto, unfolding(crate::specs::Stacks::last, crate::specs::Stacks::if_some))]
pub fn last(stack: &[u64; 1000], height: usize) -> Result<u64, Refusal>
    ensures { result ≡ last stack.now height }
{
    if height == 0 {
        return Err(Refusal::StackUnderflow);
    }
    if STACK_VALUES < height {
        return Err(Refusal::WrongPhaseOrUnsound);
    }
    let top = height - 1;
    Ok(stack[top])
}

impl<T: Copy> Two<T> {
    // The last one of a stack that is not empty.
    #[tactic(auto, unfolding(crate::specs::Stacks::last_two))]
    pub fn top(self) -> T
        ensures { result ≡ last_two self }
    {
        if self.count == 1 {
            return self.first;
        }
        self.second
    }

    // One more.
    #[tactic(auto, unfolding(crate::specs::Stacks::push_onto, crate::specs::Stacks::if_room, crate::specs::Stacks::push_two))]
    pub fn push(self, item: T) -> Result<Two<T>, Refusal>
        ensures { result ≡ push_onto self item }
    {
        match self.count {
            0 => Ok(Two {
                count: 1,
                first: item,
                second: self.second,
            }),
            1 => Ok(Two {
                count: 2,
                first: self.first,
                second: item,
            }),
            _ => Err(Refusal::StackOverflow),
        }
    }

    // The last one, and the stack without it; it stays at its place.
    #[tactic(auto, unfolding(crate::specs::Stacks::pop_off, crate::specs::Stacks::if_some, crate::specs::Stacks::pop_two, crate::specs::Stacks::last_two))]
    pub fn pop(self) -> Result<(T, Two<T>), Refusal>
        ensures { result ≡ pop_off self }
    {
        match self.count {
            0 => Err(Refusal::StackUnderflow),
            1 => Ok((
                self.first,
                Two {
                    count: 0,
                    first: self.first,
                    second: self.second,
                },
            )),
            2 => Ok((
                self.second,
                Two {
                    count: 1,
                    first: self.first,
                    second: self.second,
                },
            )),
            _ => Err(Refusal::WrongPhaseOrUnsound),
        }
    }

    // The last one.
    #[tactic(auto, unfolding(crate::specs::Stacks::last_on, crate::specs::Stacks::if_some, crate::specs::Stacks::last_two))]
    pub fn last(self) -> Result<T, Refusal>
        ensures { result ≡ last_on self }
    {
        match self.count {
            0 => Err(Refusal::StackUnderflow),
            1 => Ok(self.first),
            2 => Ok(self.second),
            _ => Err(Refusal::WrongPhaseOrUnsound),
        }
    }
}
