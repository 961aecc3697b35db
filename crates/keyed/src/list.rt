// The keyed list: what was entered last under a key is what is found.
ghost use Rattle.std.specs.Prelude.{◌≡◌, ◌%◌, ◌<◌, ◌≤◌, false, length, is_ok, IfSome, None, slice_index_or, slice_set};
ghost use Rattle.keyed.specs.Contents.{fits_list, most_entries, new_list, entered, put_verdict, put_outcome};
ghost use Rattle.keyed.specs.Memory.{newest_from, with_newest};

use crate::entry::Entry;
use crate::key::Key;

// The most entries that the memory of a list may have: places then fit 16 bits.
pub const MOST_ENTRIES: usize = 65_535;

// Whether a list can be made over memory of so many entries.
pub fn fits(entries: usize) -> bool
    ensures { result ≡ fits_list entries }
{
    1 <= entries && entries <= MOST_ENTRIES
}

// Writes an entry, and makes it the newest of the chain that starts at its start; that may be its own place.
fn write<K: Key, V: Copy>(memory: &mut [Entry<K, V>], place: usize, entry: Entry<K, V>)
    requires within { place < length memory.old }
    requires start_within { entry.start < length memory.old }
    requires few { length memory.old ≤ most_entries }
    ensures { (d : Entry K V) → memory.new ≡ slice_set (slice_set memory.old place entry) entry.start (with_newest (slice_index_or (slice_set memory.old place entry) entry.start d) place) }
{
    memory[place] = entry;
    memory[usize::from(entry.start)].newest = place as u16;
}

// The first `used` entries of the memory are the list. Over memory that does not fit it has no room.
// No vector: the memory is handed over by the caller, and no heap is used.
// Clauses read the fields and no model: the clauses `lent` speak of the reference itself, which a model's value cannot hold.
#[derive(Drop)]
pub struct KeyedList<'a, K, V> {
    memory: &'a mut [Entry<K, V>],
    used: usize,
    ghost filled: { used ≤ length memory.now },
}

impl<'a, K: Key, V: Copy> KeyedList<'a, K, V> {
    ghost use Rattle.keyed.specs.Lists.{contents};

    // An empty list. Nothing is written, whatever the memory holds.
    pub fn new(memory: &'a mut [Entry<K, V>]) -> KeyedList<'a, K, V>
        ensures made { contents K.same K.spread result ≡ new_list (length memory.old) }
        ensures memory { result.memory.now ≡ memory.old }
        ensures lent { result.memory.ghost_name ≡ memory.entry.ghost_name }
    {
        KeyedList { memory, used: 0 }
    }
}

impl<K: Key, V: Copy> KeyedList<'_, K, V> {
    ghost use Rattle.keyed.specs.Lists.{contents, place_in};

    // How many entries the memory has.
    pub fn entries(&self) -> usize
        ensures { result ≡ length self.now.memory.now }
    {
        self.memory.len()
    }

    // How many new keys may still be entered.
    pub fn spare(&self) -> usize
        ensures { result ≡ (contents K.same K.spread self.now).spare }
    {
        let entries = self.entries();
        if fits(entries) {
            entries - self.used
        } else {
            0
        }
    }

    // The place at which the search for a key starts.
    fn start_of(&self, key: &K) -> usize
        requires { 0 < length self.now.memory.now }
        ensures is { result ≡ K.spread key.now % length self.now.memory.now }
        ensures within { result < length self.now.memory.now }
    {
        key.spread() % self.entries()
    }

    // The newest entry of the chain that starts at a place, if there is one.
    fn newest_from(&self, start: usize) -> Option<usize>
        requires { start < length self.now.memory.now }
        ensures { result ≡ newest_from self.now.memory.now self.now.used start }
    {
        let newest = usize::from(self.memory[start].newest);
        if newest < self.used && usize::from(self.memory[newest].start) == start {
            Some(newest)
        } else {
            None
        }
    }

    // The place of a key's entry.
    fn search(&self, key: &K) -> Option<usize>
        ensures is { result ≡ place_in K.same K.spread self.now key.now }
        ensures within { IfSome result (λ place. place < length self.now.memory.now) }
    {
        if !fits(self.entries()) {
            return None;
        }
        let memory = &*self.memory;
        let mut place = self.newest_from(self.start_of(key))?;
        while !key.is(&memory[place].key) {
            let older = usize::from(memory[place].older);
            if older >= place {
                return None;
            }
            place = older;
        }
        Some(place)
    }

    // The content that was entered last under a key.
    pub fn find(&self, key: &K) -> Option<V>
        ensures { result ≡ (contents K.same K.spread self.now).under key.now }
    {
        let place = self.search(key)?;
        Some(self.memory[place].content)
    }

    // Appends an entry under a new key, in front of its chain. Its own place may itself be the start of a chain.
    fn append(&mut self, key: K, content: V)
        requires room { 0 < (contents K.same K.spread self.old).spare }
        requires absent { place_in K.same K.spread self.old key ≡ None }
        ensures after { contents K.same K.spread self.new ≡ entered K.same (contents K.same K.spread self.old) key content }
        ensures size { length self.new.memory.now ≡ length self.old.memory.now }
        ensures lent { self.new.memory.ghost_name ≡ self.old.memory.ghost_name }
    {
        let used = self.used;
        let start = self.start_of(&key);
        let older = self.newest_from(start).unwrap_or(used);
        let entry = Entry {
            key,
            content,
            start: start as u16,
            older: older as u16,
            newest: self.memory[used].newest,
        };
        write(self.memory, used, entry);
        self.used += 1;
    }

    // Enters a content: a key's second replaces its first. Answers `full` for a new key where every entry is used.
    pub fn put<E: Drop>(&mut self, key: K, content: V, full: E) -> Result<(), E>
        ensures answer { result ≡ put_verdict K.same (contents K.same K.spread self.old) key full }
        ensures after { contents K.same K.spread self.new ≡ put_outcome K.same (contents K.same K.spread self.old) key content }
        ensures refused { is_ok result ≡ false → self.new.memory.now ≡ self.old.memory.now }
        ensures size { length self.new.memory.now ≡ length self.old.memory.now }
        ensures lent { self.new.memory.ghost_name ≡ self.old.memory.ghost_name }
    {
        if let Some(place) = self.search(&key) {
            self.memory[place].content = content;
            return Ok(());
        }
        if self.spare() == 0 {
            return Err(full);
        }
        self.append(key, content);
        Ok(())
    }
}
