// What an entry kind gives. A kind is a value, so that it can be chosen at run time.
ghost use Rattle.std.specs.Prelude.{◌≡◌, ℕ, ◌^◌, ◌<◌, Some, Option};

pub trait EntryKind {
    type Entry: Copy;

    // which entries are of the kind
    ghost has: { Self → Self.Entry → Type 0 };

    // the code of an entry
    ghost coded: { Self → Self.Entry → ℕ };

    // the entry of a code, if it has one
    ghost decoded: { Self → ℕ → Option Self.Entry };

    fn encode(&self, value: Self::Entry) -> u64
        ensures { result ≡ coded self.now value };

    fn decode(&self, code: u64) -> Option<Self::Entry>
        ensures { result ≡ decoded self.now code };

    // no defaults: each of these four follows from a kind's own members only

    ghost fits: { (k : Self) (e : Self.Entry) → has k e → coded k e < 2 ^ 64 };

    ghost there: { (k : Self) (e : Self.Entry) → has k e → decoded k (coded k e) ≡ Some e };

    ghost back: { (k : Self) (c : ℕ) (e : Self.Entry) → decoded k c ≡ Some e → coded k e ≡ c };

    ghost own: { (k : Self) (c : ℕ) (e : Self.Entry)
        → c < 2 ^ 64 → decoded k c ≡ Some e → has k e };
}
