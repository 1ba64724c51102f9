// What is found in an image that was built, and that it is lawful.

ghost use Rattle.call_patterns.specs.Patterns.{IsPattern, positions};
ghost use Rattle.call_patterns.specs.Rows.{names, rows as rows_of};
ghost use Rattle.call_patterns.specs.Size.{empty_leaf, size};
ghost use Rattle.call_patterns.specs.declared.pattern.Pattern.{Pattern};
ghost use Rattle.call_patterns.specs.declared.row.Row.{Row};
ghost use Rattle.index_trees.specs.Images.{HoldsBucket};
ghost use Rattle.index_trees.specs.Lawful.{IsBuilt, Lawful, MarksAt, Names};
ghost use Rattle.index_trees.specs.Reading.{HasBucket, IsBucketOf, Leads, names_in, root};
ghost use Rattle.index_trees.specs.declared.image.Bucket.{Bucket};
ghost use Rattle.index_trees.specs.declared.image.Mark.{Mark};
ghost use Rattle.journals.specs.Journal.{Journal};
ghost use Rattle.std.specs.Prelude.{List, length, slice_index, take, ℕ, ◌+◌, ◌++◌, ◌<◌, ◌^◌, ◌≡◌};

/// Over an image that holds the bucket of some codes, `probe` may be called with these codes; what it answers names the rows
/// of the bucket, in order, and as many as they are; and `bucket_word` gives the name at each place of it.
pub fn probes_find_the_rows()
    ensures may_probe { (words codes : List ℕ) (rows : List Row) → empty_leaf < length words → HoldsBucket words codes rows → HasBucket words codes }
    ensures names { (words codes : List ℕ) (rows : List Row) (found : Bucket) → HoldsBucket words codes rows → Leads words (root words) codes found → names_in words found ≡ names rows }
    ensures count { (words codes : List ℕ) (rows : List Row) (found : Bucket) → HoldsBucket words codes rows → Leads words (root words) codes found → found.len ≡ length rows }
    ensures each { (words : List ℕ) (found : Bucket) (k : ℕ) → IsBucketOf words found → k < found.len → slice_index words (found.at + k) ≡ slice_index (names_in words found) k }
{}

/// What `build` makes of a procedure's rows in the first `m` entries of a journal, at a mark that says the same of these, is
/// lawful for the journal there, and has as many words as the size of the rows. It stays so however long the journal grows.
pub fn built_images_are_lawful()
    ensures lawful { (words : List ℕ) (journal : Journal) (m : ℕ) (pattern : Pattern) (made : Mark) → IsPattern pattern → made.proc < 2 ^ 32 → MarksAt journal m made
        → IsBuilt words (rows_of (take m journal) made.proc) pattern made → Lawful words journal m × (length words ≡ size (rows_of (take m journal) made.proc) pattern) }
    ensures later { (words : List ℕ) (journal more : Journal) (m : ℕ) → Lawful words journal m → Lawful words (journal ++ more) m }
{}

/// What the first word of a lawful image says, field by field: the procedure, and each position of the pattern plus one, 0
/// for none. So an image names one procedure, one pattern and one length.
pub fn lawful_images_name_one_procedure()
    ensures names { (words : List ℕ) (journal : Journal) (m : ℕ) (lawful : Lawful words journal m) → Names (slice_index words 0) lawful.procedure lawful.pattern }
    ensures one { (words : List ℕ) (journal other : Journal) (m n : ℕ) (left : Lawful words journal m) (right : Lawful words other n)
        → (m ≡ n) × ((left.procedure ≡ right.procedure) × (positions left.pattern ≡ positions right.pattern)) }
{}
