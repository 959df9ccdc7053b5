#![tactic(auto)]
// Every public call under a C name, for programs in other languages: c/faroalder.h says for people what the contracts say. Each is one call of the library's own
// function. Its arguments come as numbers and its answer goes as one, or as words of a lent array; `c_words` and `c_outs` say how. There are two families: the first
// has no `requires`; the second, `faroalder_tested_..` in the modules `tested_..`, asks for a chart and a store that passed the test, and tests only its own arguments. Some of
// the second have a lean form, `faroalder_lean_..` in `leans`, which is lent no more than it looks at.
// Kept (2): the second family is a list of modules beside the first, because the C interface has both families of names.
pub mod asks;
pub mod copies;
pub mod forces;
pub mod leans;
pub mod makes;
pub mod named;
pub mod opens;
pub mod reads;
pub mod recalls;
pub mod shows;
pub mod tested_asks;
pub mod tested_copies;
pub mod tested_forces;
pub mod tested_makes;
pub mod tested_named;
pub mod tested_reads;
pub mod tested_recalls;
pub mod tested_shows;
pub mod tested_unifies;
pub mod unifies;
