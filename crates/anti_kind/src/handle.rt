ghost use Rattle.std.specs.Prelude.{◌≡◌, IfOk};

use anti_ids::{Copies, NoMemory};
use std::alloc::Global;
use std::marker::Model;
use std::sync::Arc;

/// A handle on a value that changes no more. Its copies share the memory of the value. Contracts see the value.
pub struct Handle<T> {
    block: Arc<T>,
}

impl<T> Model for Handle<T> {
    ghost use Rattle.std.specs.Arc.{arc_value};

    ghost Value = { T };

    ghost coded = { T.code };

    ghost view = { λ h. arc_value h.block };
}

// By hand, so that no caller sees the field.
impl<T: Drop> Drop for Handle<T> {
    fn drop(self) {
        let Handle { block } = self;
        drop(block);
    }
}

impl<T: Drop> Handle<T> {
    /// A handle on a value, which moves into memory of its own.
    pub fn new(alloc: Global, value: T) -> Result<Handle<T>, NoMemory>
        ensures { IfOk result (λ handle. handle ≡ value) }
    {
        match Arc::new(alloc, value) {
            Ok(block) => Ok(Handle { block }),
            Err(_) => Err(NoMemory),
        }
    }

    /// The value.
    pub fn get(&self) -> &T
        ensures { result.now ≡ self.now }
    {
        &self.block
    }

    /// A handle for one more owner. It takes no memory.
    pub fn share(&self) -> Result<Handle<T>, NoMemory>
        ensures { IfOk result (λ handle. handle ≡ self.now) }
    {
        match Arc::try_clone(&self.block) {
            Ok(block) => Ok(Handle { block }),
            Err(_) => Err(NoMemory),
        }
    }
}

impl<T: Drop> Copies for Handle<T> {
    fn copy(&self, _alloc: Global) -> Result<Handle<T>, NoMemory> {
        self.share()
    }
}
