//! The words of a command.

ghost use Rattle.std.specs.Prelude.{◌≡◌, ◌≢◌, ◌↔◌, [], ◌∷◌, map, codes, string_bytes, IfSome, IsSome};
ghost use Rattle.mbac_top.specs.Words.{IsCompile};

/// The file that the words of a `compile` command name, or none where they are no such command.
pub fn compile_file(words: &[String]) -> Option<&str>
    ensures found { IfSome result (λ file.
        (map string_bytes words.now ≡ codes "compile" ∷ file.now ∷ []) × (file.now ≢ [])) }
    ensures exactly { IsSome result ↔ IsCompile (map string_bytes words.now) }
{
    let [command, file] = words else {
        return None;
    };
    let file = file.as_str();
    if command.as_str() == "compile" && !file.is_empty() {
        Some(file)
    } else {
        None
    }
}
