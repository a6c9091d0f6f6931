//! A queue of plain members.
ghost use Rattle.std.specs.Prelude.{◌≡◌, ◌++◌, [], ◌∷◌, length, map, drop, replicate, slice_get, IfOk, OnOk};
ghost use Rattle.std.specs.Option.{option_to_list};
ghost use Rattle.sat_queue.specs.Queued.{members_of, HasRoom, HasRoomFor};

use std::alloc::{AllocError, Global};
use std::collections::VecDeque;
use std::marker::Model;

// From so many members on a queue is large: it grows by a quarter, and gives its memory back once it is empty.
const LARGE: usize = 4096;

/// A queue. Contracts see its members, the front first, and for how many it has room.
#[derive(Drop)]
pub struct Queue<T> {
    members: VecDeque<T>,
}

impl<T> Model for Queue<T> {
    ghost use Rattle.std.specs.VecDeque.{deque_capacity};
    ghost use Rattle.sat_queue.specs.Queued as queued;

    ghost Value = { queued.Queued T };

    ghost view = { λ a. record { members = a.members.items; room = deque_capacity a.members } };
}

impl<T: Copy> Queue<T> {
    /// An empty queue. It takes no memory.
    pub fn new(alloc: Global) -> Queue<T>
        ensures { result.members ≡ [] }
    {
        Queue {
            members: VecDeque::new(alloc),
        }
    }

    /// Makes room for so many members more.
    #[inline(always)]
    pub fn reserve(&mut self, more: usize) -> Result<(), AllocError>
        ensures members { self.new.members ≡ self.old.members }
        ensures room { OnOk result (HasRoomFor more self.new) }
    {
        if more <= self.members.capacity() - self.members.len() {
            return Ok(());
        }
        self.grow(more)
    }

    // Takes memory for so many members more. A call of its own, since mostly there is room.
    #[inline(never)]
    fn grow(&mut self, more: usize) -> Result<(), AllocError>
        ensures members { self.new.members ≡ self.old.members }
        ensures room { OnOk result (HasRoomFor more self.new) }
    {
        let len = self.members.len();
        if len < LARGE {
            self.members.reserve(more)?;
        } else {
            self.members.reserve_exact(more.max(len / 4))?;
        }
        Ok(())
    }

    // Gives the memory of a large queue back, once it is empty.
    #[inline(always)]
    fn give_back(&mut self)
        ensures { self.new.members ≡ self.old.members }
    {
        if self.members.is_empty() && self.members.capacity() > LARGE {
            self.release();
        }
    }

    // A call of its own, since it is seldom made.
    #[inline(never)]
    fn release(&mut self)
        ensures { self.new.members ≡ self.old.members }
    {
        self.members.shrink_to_fit();
    }

    /// Puts a member at the end, for which there is room.
    pub fn push(&mut self, member: T)
        requires { HasRoom self.old }
        ensures { self.new.members ≡ self.old.members ++ member ∷ [] }
    {
        self.members.push_back_reserved(member);
    }

    /// Puts members at the end, for which there is room.
    pub fn extend(&mut self, more: &[T])
        requires { HasRoomFor (length more.now) self.old }
        ensures { self.new.members ≡ self.old.members ++ more.now }
    {
        for member in more {
            self.members.push_back_reserved(*member);
        }
    }

    /// The front member, None where the queue is empty. It stays there.
    pub fn front(&self) -> Option<T>
        ensures { result ≡ slice_get self.now.members 0 }
    {
        self.members.front().copied()
    }

    /// Takes the front member out, None where the queue is empty. It takes no memory.
    #[inline(always)]
    pub fn take(&mut self) -> Option<T>
        ensures member { self.old.members ≡ option_to_list result ++ self.new.members }
        ensures rest { self.new.members ≡ drop 1 self.old.members }
    {
        let member = self.members.pop_front();
        self.give_back();
        member
    }

    /// How many members the queue has.
    pub fn len(&self) -> usize
        ensures { result ≡ length self.now.members }
    {
        self.members.len()
    }

    /// The member at a place, counted from the front, None where there is none.
    pub fn get(&self, place: usize) -> Option<T>
        ensures { result ≡ slice_get self.now.members place }
    {
        self.members.get(place).copied()
    }
}

/// So many empty queues.
pub fn empty_queues<T: Copy>(alloc: Global, count: usize) -> Result<Vec<Queue<T>>, AllocError>
    ensures { IfOk result (λ queues. map members_of queues.items ≡ replicate count []) }
{
    let mut queues = Vec::with_capacity(alloc, count)?;
    'queues: for _ in 0..count {
        queues.push(Queue::new(alloc))?;
    }
    Ok(queues)
}
