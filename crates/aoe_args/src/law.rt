//! Laws of the arguments.
ghost use Rattle.std.specs.Prelude.{◌≡◌, ◌∷◌, [], codes, option_map, true};
ghost use Rattle.clap.specs.Words.{Text};
ghost use Rattle.aoe_base.specs.Names.{id_of};
ghost use Rattle.aoe_args.specs.Words.{command, file_names, is_plain, plain_answer, plain_files};

/// A law: of arguments that begin with no hyphen `answer SHELF SLOT FILE KEEP` spells the target of
/// these two numbers, with the default port, the default mtu and no buffer, over these two files.
pub fn plain_words_law()
    ensures answer { (shelf slot file keep : Text) → is_plain shelf ≡ true → is_plain slot ≡ true → is_plain file ≡ true → is_plain keep ≡ true
        → command (codes "answer" ∷ shelf ∷ slot ∷ file ∷ keep ∷ []) ≡ option_map plain_answer (id_of shelf slot) }
    ensures files { (shelf slot file keep : Text) → is_plain shelf ≡ true → is_plain slot ≡ true → is_plain file ≡ true → is_plain keep ≡ true
        → file_names (codes "answer" ∷ shelf ∷ slot ∷ file ∷ keep ∷ []) ≡ plain_files (id_of shelf slot) file keep }
{}
