//! Which numbers C code is answered by. The call does nothing: the law is its contract.
ghost use Rattle.std.specs.Prelude.{◌≡◌};
ghost use Rattle.c_values.specs.declared.numbers.TheConstants.{OK, NO_END, BUSY, BAD_LENGTH, BAD_PROFILE, BAD_NONCE, BAD_CONN, BAD_WATCHDOG, BAD_HAND, BAD_MOST, BAD_APP, FRAME_DUE, NONE_DUE, NOT_IN_DATA, NO_ROOM};

/// The answers are the numbers of `enum gp_answer` in `embed/gatepast.h`.
pub fn answers()
    ensures ok { OK ≡ 0 }
    ensures no_end { NO_END ≡ 1 }
    ensures busy { BUSY ≡ 2 }
    ensures bad_length { BAD_LENGTH ≡ 3 }
    ensures bad_profile { BAD_PROFILE ≡ 4 }
    ensures bad_nonce { BAD_NONCE ≡ 5 }
    ensures bad_conn { BAD_CONN ≡ 6 }
    ensures bad_watchdog { BAD_WATCHDOG ≡ 7 }
    ensures bad_hand { BAD_HAND ≡ 8 }
    ensures bad_most { BAD_MOST ≡ 9 }
    ensures bad_app { BAD_APP ≡ 10 }
    ensures frame_due { FRAME_DUE ≡ 11 }
    ensures none_due { NONE_DUE ≡ 12 }
    ensures not_in_data { NOT_IN_DATA ≡ 13 }
    ensures no_room { NO_ROOM ≡ 14 }
{}
