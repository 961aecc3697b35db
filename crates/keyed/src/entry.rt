// An entry of a keyed list, with its links to others.
ghost use Rattle.std.specs.Prelude.{◌≡◌};

// The entries of keys whose search starts at the same place are a chain, the newest first.
// Links are places of 16 bits and no options, since entries lie in memory that is handed over by the caller, as small as can be.
#[derive(Clone, Copy)]
pub struct Entry<K, V> {
    pub(crate) key: K,
    pub(crate) content: V,
    // the place at which the search for this key starts
    pub(crate) start: u16,
    // the place of the next older entry of the chain; not below this entry's own place if there is none
    pub(crate) older: u16,
    // the place of the newest entry of the chain that starts here
    pub(crate) newest: u16,
}

impl<K, V> Entry<K, V> {
    // An entry to fill memory with before it is handed over. What memory holds at first does not matter.
    pub fn filler(key: K, content: V) -> Entry<K, V>
        ensures { result ≡ record { key = key; content = content; start = 0; older = 0; newest = 0 } }
    {
        Entry {
            key,
            content,
            start: 0,
            older: 0,
            newest: 0,
        }
    }
}
