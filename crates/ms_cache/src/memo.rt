ghost use Rattle.std.specs.Prelude.{◌≡◌, ◌+◌, ◌-◌, ◌^◌, ◌≤◌, [], min, IsOk, IsSome, MatchOption, IfOk, OnOk, OnErr};
ghost use Rattle.std.specs.Map.{lookup};
ghost use Rattle.lru.specs.LruCache.{lru_cache, promoted, put_entries};

use crate::key::Key;
use lru::LruCache;
use ms_arena::Ref;
use ms_list::NoMemory;
use std::alloc::Global;
use std::marker::Model;
use std::num::NonZeroUsize;

/// What keys have become, for so many keys as there is room for: the least recently used go first. Contracts see the
/// entries, the most recently used first, how many there may be, and how often the memo had an answer.
#[derive(Drop)]
pub struct Memo {
    cache: LruCache<Key, Ref>,
    hits: u64,
}

impl Model for Memo {
    ghost use Rattle.ms_cache.specs.Memo.{Contents};

    ghost Value = { Contents };

    ghost view = { λ m. record { entries = m.cache.entries; capacity = m.cache.cap; hits = m.hits } };
}

impl Memo {
    ghost use Rattle.ms_cache.specs.Key.{is_key};

    /// A memo with no entries, which will hold at most so many and reserves no room for them.
    pub fn new(alloc: Global, capacity: u32) -> Result<Memo, NoMemory>
        requires { 1 ≤ capacity }
        ensures empty { IfOk result (λ made. made.entries ≡ []) }
        ensures capacity { IfOk result (λ made. made.capacity ≡ capacity) }
        ensures hits { IfOk result (λ made. made.hits ≡ 0) }
    {
        let room = NonZeroUsize::new(capacity as usize).unwrap();
        let Ok(cache) = LruCache::sparse(alloc, room) else {
            return Err(NoMemory);
        };
        Ok(Memo { cache, hits: 0 })
    }

    /// What the key has become, if it has an entry, which is then the most recently used. The answers are counted up to
    /// the greatest `u64`.
    pub fn ask(&mut self, key: Key) -> Option<Ref>
        ensures answer { result ≡ lookup (is_key key) self.old.entries }
        ensures entries { self.new.entries ≡ promoted (is_key key) self.old.entries }
        ensures hits { MatchOption result (self.new.hits ≡ self.old.hits) (λ _. self.new.hits ≡ min (self.old.hits + 1) (2 ^ 64 - 1)) }
        ensures capacity { self.new.capacity ≡ self.old.capacity }
    {
        let value = *self.cache.get(&key)?;
        self.hits = self.hits.saturating_add(1);
        Some(value)
    }

    /// Notes what the key has become: its entry is the most recently used, and the least recently used goes where the
    /// key is new and there is no more room.
    pub fn tell(&mut self, key: Key, value: Ref) -> Result<(), NoMemory>
        ensures entries { OnOk result (self.new.entries ≡ put_entries is_key (lru_cache self.old.entries self.old.capacity) key value) }
        ensures hits { self.new.hits ≡ self.old.hits }
        ensures capacity { self.new.capacity ≡ self.old.capacity }
        ensures refused { OnErr result (self.new ≡ self.old) }
        ensures succeeds { IsSome (lookup (is_key key) self.old.entries) → IsOk result }
    {
        match self.cache.put(key, value) {
            Ok(_) => Ok(()),
            Err(_) => Err(NoMemory),
        }
    }

    /// How often the memo had an answer.
    pub fn hits(&self) -> u64
        ensures { result ≡ self.now.hits }
    {
        self.hits
    }

    /// Lets all entries go.
    pub fn clear(&mut self)
        ensures entries { self.new.entries ≡ [] }
        ensures hits { self.new.hits ≡ self.old.hits }
        ensures capacity { self.new.capacity ≡ self.old.capacity }
    {
        self.cache.clear();
    }
}
