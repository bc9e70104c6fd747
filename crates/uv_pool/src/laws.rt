//! Laws of keys and of deeds, each the contract of a function that does nothing.

ghost use Rattle.uv_pool.specs.Laws.{KeyIsReadBack, KeyOfWhatItNames, NewIsPlanted, PlantedIsBuried};

/// A key names the kind and the cell that it was made of, and the low 8 bits of the generation.
pub fn key_is_read_back()
    ensures { KeyIsReadBack }
{}

/// What a key names is a cell of a kind that has keys, and the key made of it is this one.
pub fn key_of_what_it_names()
    ensures { KeyOfWhatItNames }
{}

/// A deed that goes out for a new object comes back planted for it.
pub fn new_is_planted()
    ensures { NewIsPlanted }
{}

/// A deed that goes out planted comes back buried.
pub fn planted_is_buried()
    ensures { PlantedIsBuried }
{}
