ghost use Rattle.std.specs.Prelude.{◌≡◌, ℕ, ◌<◌, Bool, true, List, [], ◌∷◌, ◌++◌, All, IsTrue, length};
ghost use Rattle.std.specs.List.{range_with_len};
ghost use Rattle.dml_order.specs.Order.{Commutes, IsOrder, left_in_order, run_all, taken_in_order};
ghost use Rattle.dml_order.specs.Waves.{AreFull, IsOfOneLevel, Rises, joined, clash_waves, waves_of};

/// The law of orders, for steps that keep a state good and of which two that do not clash may change places in every
/// good state. Each order in which no step goes before an earlier one that clashes with it ends as the list does; so
/// does the front of such an order, followed by the steps that are left, in list order; and the front by itself ends
/// as its own steps do in list order.
pub fn law_of_orders<S>()
    ensures any_order { (good : S → Bool) (after : S → ℕ → S) (clash : ℕ → ℕ → Bool) (n : ℕ) (order : List ℕ) →
        Commutes S (λ state. IsTrue (good state)) after clash n → IsOrder clash n order →
        (state : S) → IsTrue (good state) → run_all after state order ≡ run_all after state (range_with_len 0 n) }
    ensures front_then_left { (good : S → Bool) (after : S → ℕ → S) (clash : ℕ → ℕ → Bool) (n : ℕ) (front behind : List ℕ) →
        Commutes S (λ state. IsTrue (good state)) after clash n → IsOrder clash n (front ++ behind) →
        (state : S) → IsTrue (good state) → run_all after state (front ++ left_in_order n front) ≡ run_all after state (range_with_len 0 n) }
    ensures front { (good : S → Bool) (after : S → ℕ → S) (clash : ℕ → ℕ → Bool) (n : ℕ) (front behind : List ℕ) →
        Commutes S (λ state. IsTrue (good state)) after clash n → IsOrder clash n (front ++ behind) →
        (state : S) → IsTrue (good state) → run_all after state front ≡ run_all after state (taken_in_order n front) }
{}

/// The law of waves, whatever fits into one. One after another they are an order in which no step goes before an
/// earlier one that clashes with it. They go level by level, and in list order inside a level; a wave is of one level,
/// it fits where each step fits by itself, and it ends only where its level does or the next step does not fit.
pub fn law_of_waves()
    ensures order { (fits : List ℕ → Bool) (clash : ℕ → ℕ → Bool) (n : ℕ) → IsOrder clash n (joined (clash_waves fits clash n)) }
    ensures rise { (fits : List ℕ → Bool) (levels : List ℕ) → Rises levels (joined (waves_of fits levels)) }
    ensures one_level { (fits : List ℕ → Bool) (levels : List ℕ) → All (IsOfOneLevel levels) (waves_of fits levels) }
    ensures fit { (fits : List ℕ → Bool) (levels : List ℕ) → ((i : ℕ) → i < length levels → fits (i ∷ []) ≡ true) →
        All (λ wave. fits wave ≡ true) (waves_of fits levels) }
    ensures full { (fits : List ℕ → Bool) (levels : List ℕ) → AreFull fits levels (waves_of fits levels) }
{}
