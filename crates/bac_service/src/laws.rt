//! Laws of spellings: empty functions whose contracts are the laws.
ghost use Rattle.std.specs.Prelude.{◌≡◌, ℕ, List, [], Ok, true};
ghost use Rattle.bac_value.specs.Octets.{IsBytes};
ghost use Rattle.bac_service.specs.Replies.{IsReply, SpellsComplex, complex_at, reads_reply};
ghost use Rattle.bac_service.specs.Requests.{SpellsRequest, request_at};
ghost use Rattle.bac_service.specs.Values.{Request, Complex};

/// A request has one spelling, and service data encode at most one request of a service choice.
pub fn one_request_spelling()
    ensures only { (choice : ℕ) (r : Request) (a b : List ℕ) → SpellsRequest choice r a → SpellsRequest choice r b → a ≡ b }
    ensures apart { (choice : ℕ) (q r : Request) (bytes : List ℕ) → SpellsRequest choice q bytes → SpellsRequest choice r bytes → q ≡ r }
{}

/// The service data of a ComplexACK have one spelling, and octets encode at most one of them for a service choice.
pub fn one_reply_spelling()
    ensures only { (choice : ℕ) (c : Complex) (a b : List ℕ) → SpellsComplex choice c a → SpellsComplex choice c b → a ≡ b }
    ensures apart { (choice : ℕ) (c d : Complex) (bytes : List ℕ) → SpellsComplex choice c bytes → SpellsComplex choice d bytes → c ≡ d }
{}

/// A spelling of a request is read as that request, and a request that was read is spelled by what was read. No request has an
/// empty spelling.
pub fn requests_are_read()
    ensures read { (choice : ℕ) (r : Request) (bytes : List ℕ) → SpellsRequest choice r bytes → request_at choice bytes ≡ Ok r }
    ensures spelled { (choice : ℕ) (r : Request) (bytes : List ℕ) → IsBytes bytes → request_at choice bytes ≡ Ok r → SpellsRequest choice r bytes }
    ensures some { (choice : ℕ) (r : Request) → SpellsRequest choice r [] → ⊥ }
{}

/// The same for the service data of a ComplexACK. Octets can be read exactly if they are a spelling of some service data.
pub fn replies_are_read()
    ensures read { (choice : ℕ) (c : Complex) (bytes : List ℕ) → SpellsComplex choice c bytes → complex_at choice bytes ≡ Ok c }
    ensures spelled { (choice : ℕ) (c : Complex) (bytes : List ℕ) → IsBytes bytes → complex_at choice bytes ≡ Ok c → SpellsComplex choice c bytes }
    ensures some { (choice : ℕ) (c : Complex) → SpellsComplex choice c [] → ⊥ }
    ensures readable { (choice : ℕ) (bytes : List ℕ) → IsReply choice bytes → reads_reply choice bytes ≡ true }
    ensures only { (choice : ℕ) (bytes : List ℕ) → IsBytes bytes → reads_reply choice bytes ≡ true → IsReply choice bytes }
{}
