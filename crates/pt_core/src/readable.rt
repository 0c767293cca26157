//! The trait `ReadableHistory` for a core.

use crate::core_type::Core;
use crate::reading;
use pt_readable::{ReadableHistory, Waiting};
use pt_types::operations::ObjectClass;
use pt_types::views::{MutexView, RwlockView};
use pt_types::{ClientId, Clock, Moment, Name, ObjectId};
use std::alloc::Allocator;

impl<A: Allocator + Copy> ReadableHistory for Core<A> {
    fn find(&self, n: &Name, class: ObjectClass) -> Option<ObjectId> {
        reading::find(self.body.state(), n, class)
    }

    fn is_named(&self, n: &Name) -> bool {
        reading::is_named(self.body.state(), n)
    }

    fn objects(&self) -> usize {
        reading::objects(self.body.state())
    }

    fn mutex(&self, n: &Name) -> Option<MutexView> {
        reading::mutex(self.body.state(), n)
    }

    fn rwlock(&self, n: &Name, c: ClientId) -> Option<RwlockView> {
        reading::rwlock(self.body.state(), n, c)
    }

    fn is_blocked(&self, n: &Name, c: ClientId) -> Option<bool> {
        reading::is_blocked(&self.body, n, c)
    }

    fn bound(&self, n: &Name) -> Option<Option<ObjectId>> {
        reading::bound(&self.body, n)
    }

    fn is_busy(&self, n: &Name, class: ObjectClass) -> Option<bool> {
        reading::is_busy(&self.body, n, class)
    }

    fn barrier_count(&self, n: &Name) -> Option<u64> {
        reading::barrier_count(self.body.state(), n)
    }

    fn is_alive(&self, c: ClientId) -> bool {
        reading::is_alive(self.body.state(), c)
    }

    fn waiting(&self, c: ClientId) -> Option<Waiting> {
        reading::waiting(self.body.state(), c)
    }

    fn open_call(&self, c: ClientId) -> Option<u64> {
        Core::open_call(self, c)
    }

    fn reading(&self, clock: Clock) -> Option<Moment> {
        reading::reading(self.body.state(), clock)
    }
}
