// Writing an object's row: its parts in order, each behind the one before it.
ghost use Rattle.std.specs.Prelude.{◌≡◌, ◌*◌, ◌^◌, ◌<◌, ◌≤◌, ◌++◌, length, drop};
ghost use Rattle.compiler.specs.Filling.{filled, rest};
ghost use Rattle.compiler.specs.ObjectWriting.{object_size, offer_words, WritesObject};

use crate::filled::Filled;
use crate::layout::Layout;

impl Layout<'_> {
    // Writes three words for each offered procedure.
    fn write_offers(&self, row: &mut Filled)
        requires { 3 * length self.now.view.offers.now ≤ length (rest row.old) }
        ensures offers { filled row.new ≡ filled row.old ++ offer_words self.now.arities.now self.now.starts.now self.now.view.offers.now }
        ensures rest { rest row.new ≡ drop (3 * length self.now.view.offers.now) (rest row.old) }
        ensures same_words { row.new.words.ghost_name ≡ row.old.words.ghost_name }
    {
        for offer in self.view.offers {
            row.put(&self.offer(*offer));
        }
    }

    // Writes the unit's object with this code and these fits; says how many words that were.
    pub fn write_object(&self, code: &[u32], fits: &[u32], object: &mut [u32]) -> usize
        requires space { object_size self.now.view code.now fits.now ≤ length object.old }
        requires words { object_size self.now.view code.now fits.now < 2 ^ 32 }
        ensures size { result ≡ object_size self.now.view code.now fits.now }
        ensures writes { WritesObject self.now code.now fits.now object.old object.new result }
    {
        let wants = self.view.wants.as_flattened();
        let mut row = Filled {
            words: object,
            len: 0,
        };
        row.put(&[
            self.view.name,
            self.view.words,
            self.view.want_count() as u32,
            self.view.offers.len() as u32,
            code.len() as u32,
            (fits.len() / 3) as u32,
        ]);
        row.put(wants);
        self.write_offers(&mut row);
        row.put(code);
        row.put(fits);
        row.len()
    }
}
