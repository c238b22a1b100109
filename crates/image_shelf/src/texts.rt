// The symbols, names and ids of the files of an image shelf.
ghost use Rattle.std.specs.Prelude.{◌≡◌};
ghost use Rattle.std.specs.Option.{option_map};
ghost use Rattle.shelf.specs.Questions.{ask, link_name, model_of, name_of, object_of};
ghost use Rattle.image_shelf.specs.Contents.{shelf_files};
ghost use Rattle.image_shelf.specs.Entries.{entry_model};

use crate::entry::Entry;
use crate::images::ImageShelf;

impl<'a> ImageShelf<'a> {
    // The symbol at this place of the object file with this number.
    pub(crate) fn entry(&self, file: usize, symbol: usize) -> Option<Entry<'a>>
        ensures value { option_map entry_model result ≡ model_of (shelf_files self.now) file symbol }
    {
        self.object(file)?.entry(symbol)
    }

    // The name of that symbol.
    pub(crate) fn name(&self, file: usize, symbol: usize) -> Option<&'a [u8]>
        ensures value { option_map (λ x. x.now) result ≡ name_of (shelf_files self.now) file symbol }
    {
        self.entry(file, symbol)?.name()
    }

    // The name in the debuglink of that object file.
    pub(crate) fn link(&self, file: usize) -> Option<&'a [u8]>
        ensures value { option_map (λ x. x.now) result ≡ ask (object_of (shelf_files self.now) file) (λ o. link_name o.debuglink) }
    {
        self.object(file)?.link()
    }

    // The build id of that object file.
    pub(crate) fn build_id(&self, file: usize) -> Option<&'a [u8]>
        ensures value { option_map (λ x. x.now) result ≡ ask (object_of (shelf_files self.now) file) (λ o. o.build_id) }
    {
        self.object(file)?.build_id()
    }
}
