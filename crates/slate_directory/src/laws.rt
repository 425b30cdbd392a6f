// What a name can't hold.
ghost use Rattle.std.specs.Prelude.{◌<◌, ◌^◌, ◌≢◌, ℕ, All};
ghost use Rattle.slate_directory.specs.Names.{number_stem, table_stem};
ghost use Rattle.slate_store.specs.declared.objects.TableId.{TableId};

/// No name that is made of an id has a slash in it, so that no path leaves its folder.
pub fn names_stay_in_their_folder()
    ensures numbers { (n : ℕ) → n < 2 ^ 64 → All (λ b. b ≢ 47) (number_stem n) }
    ensures tables { (id : TableId) → id.epoch < 2 ^ 64 → id.index < 2 ^ 64 → All (λ b. b ≢ 47) (table_stem id) }
{}
