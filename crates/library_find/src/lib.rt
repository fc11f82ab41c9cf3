// The finds: a module, a submodule or an import-only module by its name, in the image's order. The image is read first, so that 20 is told wherever it
// is broken; then the search goes through its bytes.
#![tactic(auto)]

ghost use Rattle.std.specs.Prelude.{◌≡◌};
ghost use Rattle.library_find.specs.Find.{find_module, find_submodule, find_import_module};

use library_form::WrongAt;

// The first module with the bytes of `name`.
pub fn find_module(image: &[u8], name: &[u8]) -> Result<Option<(usize, usize)>, WrongAt>
    ensures { result ≡ find_module image.now name.now }
{
    library_read::read_image(image)?;
    library_search::found_by(library_search::try_sets(image, true, false, name))
}

// The first submodule of a module with the bytes of `name`.
pub fn find_submodule(image: &[u8], name: &[u8]) -> Result<Option<(usize, usize)>, WrongAt>
    ensures { result ≡ find_submodule image.now name.now }
{
    library_read::read_image(image)?;
    library_search::search_submodule(image, name)
}

// The first import-only module with the bytes of `name`, and how many revisions it has.
pub fn find_import_module(image: &[u8], name: &[u8]) -> Result<Option<(usize, usize)>, WrongAt>
    ensures { result ≡ find_import_module image.now name.now }
{
    library_read::read_image(image)?;
    library_search::found_by(library_search::try_sets(image, false, true, name))
}
