//! Which numbers the constants are. The call does nothing: the law is its contract.
ghost use Rattle.std.specs.Prelude.{◌≡◌};
ghost use Rattle.fsoe_base.specs.Codes.{local_reset, command_not_allowed, unknown_command, wrong_connection, wrong_crc, watchdog_expired, wrong_address, wrong_data, wrong_communication_length, wrong_communication, wrong_application_length, wrong_application};
ghost use Rattle.fsoe_base.specs.Lengths.{most_data, most_frame};
ghost use Rattle.fsoe_base.specs.declared.command.TheConstants.Code.{LOCAL_RESET, COMMAND_NOT_ALLOWED, UNKNOWN_COMMAND, WRONG_CONNECTION, WRONG_CRC, WATCHDOG_EXPIRED, WRONG_ADDRESS, WRONG_DATA, WRONG_COMMUNICATION_LENGTH, WRONG_COMMUNICATION, WRONG_APPLICATION_LENGTH, WRONG_APPLICATION};
ghost use Rattle.fsoe_base.specs.declared.lengths.TheConstants.{MOST_DATA, MOST_FRAME};

/// The most bytes of safe data and of a frame, and the codes of Reset frames, are those of the definitions.
pub fn constants()
    ensures data { MOST_DATA ≡ most_data }
    ensures frame { MOST_FRAME ≡ most_frame }
    ensures local_reset { LOCAL_RESET ≡ local_reset }
    ensures command_not_allowed { COMMAND_NOT_ALLOWED ≡ command_not_allowed }
    ensures unknown_command { UNKNOWN_COMMAND ≡ unknown_command }
    ensures wrong_connection { WRONG_CONNECTION ≡ wrong_connection }
    ensures wrong_crc { WRONG_CRC ≡ wrong_crc }
    ensures watchdog_expired { WATCHDOG_EXPIRED ≡ watchdog_expired }
    ensures wrong_address { WRONG_ADDRESS ≡ wrong_address }
    ensures wrong_data { WRONG_DATA ≡ wrong_data }
    ensures wrong_communication_length { WRONG_COMMUNICATION_LENGTH ≡ wrong_communication_length }
    ensures wrong_communication { WRONG_COMMUNICATION ≡ wrong_communication }
    ensures wrong_application_length { WRONG_APPLICATION_LENGTH ≡ wrong_application_length }
    ensures wrong_application { WRONG_APPLICATION ≡ wrong_application }
{}
