ghost use Rattle.std.specs.Prelude.{◌≡◌, [], ◌∷◌, Some, true, slice_get, length, nat_lt, IsOk, IfOk, OnOk, OnErr};
ghost use Rattle.std.specs.NonZero.{non_zero_usize_get};
ghost use Rattle.core_model.specs.Tests.{any};
ghost use Rattle.core_model.specs.Changes.{touched};
ghost use Rattle.base_types.specs.Grains.{same_grain};
ghost use Rattle.activations.specs.LastUsed.{others};

use base_types::GrainId;
use lru::LruCache;
use std::alloc::{AllocError, Global};
use std::marker::Model;
use std::num::NonZeroUsize;

/// The grains that were used last. Contracts see them, the one used last first, with how many there may be.
#[derive(Drop)]
pub struct Recent {
    cache: LruCache<GrainId, ()>,
}

impl Model for Recent {
    ghost use Rattle.std.specs.Map.{keys_of};
    ghost use Rattle.activations.specs.LastUsed.{LastUsed};

    ghost Value = { LastUsed };

    ghost view = { λ r. record { grains = keys_of r.cache.entries; limit = r.cache.cap } };
}

impl Recent {
    /// No grain was used yet. So many may be kept. Room for them is made as they come.
    pub fn new(alloc: Global, limit: NonZeroUsize) -> Result<Recent, AllocError>
        ensures grains { IfOk result (λ made. made.grains ≡ []) }
        ensures limit { IfOk result (λ made. made.limit ≡ non_zero_usize_get limit) }
    {
        let cache = LruCache::sparse(alloc, limit)?;
        Ok(Recent { cache })
    }

    /// Whether the grain is one of those used last.
    pub fn has(&self, grain: GrainId) -> bool
        ensures { result ≡ any (same_grain grain) self.now.grains }
    {
        self.cache.contains(&grain)
    }

    /// Whether fewer grains were used than may be kept.
    pub fn has_space(&self) -> bool
        ensures { result ≡ nat_lt (length self.now.grains) self.now.limit }
    {
        self.cache.len() < self.cache.cap().get()
    }

    /// The grain is used: it comes first. Answers which grain is none of those used last any more for that, if one is. Without
    /// memory all stays as it was; a grain that is one of them takes none.
    pub fn touch(&mut self, grain: GrainId) -> Result<Option<GrainId>, AllocError>
        ensures grains { OnOk result (self.new.grains ≡ touched (Some self.old.limit) grain self.old.grains) }
        ensures left { IfOk result (λ left. left ≡ slice_get (grain ∷ others grain self.old.grains) self.old.limit) }
        ensures limit { self.new.limit ≡ self.old.limit }
        ensures kept { OnErr result (self.new.grains ≡ self.old.grains) }
        ensures sure { any (same_grain grain) self.old.grains ≡ true → IsOk result }
    {
        // Contracts learn here that no grain stands twice.
        let _ = self.cache.len();
        let Some((left, ())) = self.cache.push(grain, ())? else {
            return Ok(None);
        };
        if left == grain {
            return Ok(None);
        }
        Ok(Some(left))
    }
}
